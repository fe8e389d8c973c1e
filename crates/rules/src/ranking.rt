// Rankings of Program orders, and the order of a side that stands on one.
ghost use Rattle.std.specs.Prelude.{◌≡◌, ℕ, Bool};
ghost use Rattle.rules.specs.Rankings.{Ranking as Figures, Ranks, size_time, time_only, class_of, key_of, key_ahead};
ghost use Rattle.std.proofs.Common.{rules};
ghost use Rattle.rules.specs.Precedences.{keys_total};

use super::types::{Class, Kind, Order, OrderKey};
use market::is_better;
use market::types::Side;
use shelf::{Precedence, Shelved};

// A ranking is told the ranking sizes and the arrivals of two Program orders, and says whether the
// first is ahead. A renter may bring one of his own; its laws are owed for all figures.
pub trait Ranking {
    ghost ranked: { Self → Figures };

    fn ranks(&self, size: u32, arrival: u32, other_size: u32, other_arrival: u32) -> bool
        ensures { result ≡ ranked self.now size arrival other_size other_arrival };

    ghost lawful: { (r : Self) → Ranks (ranked r) };
}

// Rule 107D's own ranking: the larger ranking size ahead, then the lower arrival.
#[derive(Clone, Copy)]
pub struct SizeTime;

impl Ranking for SizeTime {
    ghost ranked = { λ _. size_time };

    ghost lawful = { Prim.search rules };

    fn ranks(&self, size: u32, arrival: u32, other_size: u32, other_arrival: u32) -> bool {
        if size == other_size {
            return arrival < other_arrival;
        }
        size > other_size
    }
}

// By arrival alone.
#[derive(Clone, Copy)]
pub struct Time;

impl Ranking for Time {
    ghost ranked = { λ _. time_only };

    ghost lawful = { Prim.search rules };

    fn ranks(&self, _size: u32, arrival: u32, _other_size: u32, other_arrival: u32) -> bool {
        arrival < other_arrival
    }
}

impl From<Kind> for Class {
    ghost from_gives = { λ kind class. class ≡ class_of kind };

    fn from(kind: Kind) -> Class {
        match kind {
            Kind::Displayed => Class::Displayed,
            Kind::Olo | Kind::Ilo { .. } => Class::Program,
            Kind::Dark => Class::Dark,
        }
    }
}

impl Shelved for Order {
    type Key = OrderKey;

    ghost keyed = { key_of };

    ghost tagged = { λ o. o.arrival };

    fn key(&self) -> OrderKey {
        OrderKey {
            price: self.price,
            class: Class::from(self.kind),
            size: self.size,
            arrival: self.arrival,
        }
    }

    fn tag(&self) -> u32 {
        self.arrival
    }
}

// The order of one side under a ranking: price, then class, then within the class.
#[derive(Clone, Copy)]
pub struct Sided<R> {
    pub side: Side,
    pub ranking: R,
}

impl<R: Ranking> Precedence<OrderKey> for Sided<R> {
    ghost label = { λ k. k.arrival };

    ghost ahead = { λ s. key_ahead s.side (R.Ranking.ranked s.ranking) };

    ghost total = { λ s. keys_total (R.Ranking.ranked s.ranking) (R.Ranking.lawful s.ranking) s.side };

    // Written out, since side and ranking are known when a book is made, and no derive knows of them.
    fn precedes(&self, a: &OrderKey, b: &OrderKey) -> bool {
        if a.price != b.price {
            return is_better(self.side, a.price, b.price);
        }
        if a.class != b.class {
            return a.class < b.class;
        }
        match a.class {
            Class::Program => self.ranking.ranks(a.size, a.arrival, b.size, b.arrival),
            Class::Displayed | Class::Dark => a.arrival < b.arrival,
        }
    }
}
