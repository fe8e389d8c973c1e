// The ladder: a board that holds each side's quotations on a shelf, the best first.
ghost use Rattle.std.specs.Prelude.{◌≡◌, ℕ, ◌<◌, ◌≤◌, true, List, [], length, take, Some, None};
ghost use Rattle.std.specs.List.{remove};
ghost use Rattle.board.specs.declared.types.Best.{Best};
ghost use Rattle.shelf.specs.Standing.{put_in};
ghost use Rattle.board.specs.Quotes.{market_ok, quote_ok};
ghost use Rattle.board.specs.Ladders.{rung_of, level_of, over, before, rail_quote, without, rail_ok};
ghost use Rattle.std.proofs.Common.{rules};
ghost use Rattle.board.specs.LaddersLemmas.{rail_lawful};

use super::side::BoardSide;
use super::two_sided::TwoSided;
use super::types::{Best, ByPrice, Quote, Rung};
use market::is_better;
use market::types::Side;
use shelf::{Precedence, Shelf, Shelved, find};
use std::marker::Model;

pub type Ladder = TwoSided<Rail>;

impl Shelved for Best {
    type Key = Rung;

    ghost keyed = { rung_of };

    ghost tagged = { λ x. x.market };

    fn key(&self) -> Rung {
        Rung {
            price: self.quote.price,
            market: self.market,
        }
    }

    fn tag(&self) -> u32 {
        self.market
    }
}

impl Precedence<Rung> for ByPrice {
    ghost label = { λ r. r.market };

    ghost ahead = { λ s. over s.side };

    ghost total = { Prim.search rules };

    // Written out, since the side decides which price stands ahead, and no derive knows of it.
    fn precedes(&self, a: &Rung, b: &Rung) -> bool {
        if a.price == b.price {
            a.market < b.market
        } else {
            is_better(self.side, a.price, b.price)
        }
    }
}

// Up to 16 levels, one for each market at most. There is no heap, so they stand in a fixed array
// beside their count.
#[derive(Drop)]
struct Levels {
    cells: [Best; 16],
    count: usize,
}

impl Model for Levels {
    ghost Value = { List Best };

    ghost view = { λ l. take l.count l.cells };

    ghost invariant = { λ l. (length l.cells ≡ 16) × (l.count ≤ 16) };
}

impl Levels {
    fn new() -> Levels
        ensures { result ≡ [] }
    {
        Levels {
            cells: [Best::default(); 16],
            count: 0,
        }
    }

    fn as_slice(&self) -> &[Best]
        ensures { result.now ≡ self.now }
    {
        &self.cells[..self.count]
    }

    fn put(&mut self, order: &ByPrice, level: Best)
        requires { length self.old < 16 }
        ensures { self.new ≡ put_in (before order.now.side) level self.old }
    {
        let mut shelf = Shelf::over(&mut self.cells, self.count);
        shelf.put(order, level).unwrap();
        self.count = shelf.count();
    }

    fn take_out(&mut self, place: usize)
        requires { place < length self.old }
        ensures { self.new ≡ remove self.old place }
    {
        let mut shelf = Shelf::over(&mut self.cells, self.count);
        shelf.take_out(place).unwrap();
        self.count = shelf.count();
    }
}

// One side: its levels, best first.
#[derive(Drop)]
pub struct Rail {
    order: ByPrice,
    levels: Levels,
    ghost sound: { rail_ok order.side levels ≡ true },
}

impl Rail {
    // Takes a market's level out, if it has one.
    fn remove(&mut self, market: u32)
        ensures stands { self.new.levels ≡ without market self.old.levels }
        ensures same { self.new.order ≡ self.old.order }
    {
        if let Some(found) = find(self.levels.as_slice(), market) {
            self.levels.take_out(found.place);
        }
    }

    // Puts in the level of a market that has none. There is room, since the other levels are of
    // other markets, and there are 16 markets.
    fn add(&mut self, market: u32, quote: Quote)
        requires listed { market_ok market ≡ true }
        requires ranged { quote_ok (Some quote) ≡ true }
        requires none { rail_quote self.old.levels market ≡ None }
        ensures stands { self.new.levels ≡ put_in (before self.old.order.side) (level_of market quote) self.old.levels }
        ensures same { self.new.order ≡ self.old.order }
    {
        self.levels.put(&self.order, Best { market, quote });
    }
}

impl BoardSide for Rail {
    ghost side_of = { λ r. r.order.side };

    ghost quoted = { λ r. rail_quote r.levels };

    ghost lawful = { λ r. rail_lawful r.order.side r.levels r.sound };

    fn new(side: Side) -> Rail {
        Rail {
            order: ByPrice { side },
            levels: Levels::new(),
        }
    }

    fn set(&mut self, market: u32, quote: Option<Quote>) {
        self.remove(market);
        if let Some(quote) = quote {
            self.add(market, quote);
        }
    }

    #[tactic(auto, using(crate::specs::LaddersLemmas::first_best))]
    fn best(&self) -> Option<Best> {
        self.levels.as_slice().first().copied()
    }

    fn look(&self, market: u32) -> Option<Quote> {
        find(self.levels.as_slice(), market).map(|found| found.item.quote)
    }
}
