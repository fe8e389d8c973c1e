// The words that every other crate shares: the two sides of a market, the ranges of prices and
// shares, and the reasons for which a call is sent back.
#![tactic(auto)]

ghost use Rattle.std.specs.Prelude.{◌≡◌};
ghost use Rattle.market.specs.Words.{opposite, better, in_range};
ghost use Rattle.market.specs.Refusals.{number_of, index_of, place_of};

pub mod types;

use types::{Refusal, Side};

// The largest price in cents, and the largest number of shares, of an order or a quotation.
pub const LARGEST: u32 = 1_000_000;

pub fn other(side: Side) -> Side
    ensures { result ≡ opposite side }
{
    match side {
        Side::Buy => Side::Sell,
        Side::Sell => Side::Buy,
    }
}

// Whether price `a` is strictly better than `b` for the side that asks it: a higher bid, a lower offer.
pub fn is_better(side: Side, a: u32, b: u32) -> bool
    ensures { result ≡ better side a b }
{
    match side {
        Side::Buy => a > b,
        Side::Sell => a < b,
    }
}

// Whether a price or a number of shares lies in its range.
pub fn is_in_range(n: u32) -> bool
    ensures { result ≡ in_range n }
{
    (1..=LARGEST).contains(&n)
}

impl Refusal {
    // The number under which a refusal is reported. Hosts know these numbers, so each is written out
    // and none follows from the order of the variants.
    pub fn number(self) -> u32
        ensures { result ≡ number_of self }
    {
        match self {
            Refusal::Price => 1,
            Refusal::Shares => 2,
            Refusal::SmallOlo => 3,
            Refusal::SmallIlo => 4,
            Refusal::LargeMtv => 5,
            Refusal::SideFull => 6,
            Refusal::ArrivalsSpent => 7,
            Refusal::ShortReport => 8,
            Refusal::NotResting => 9,
            Refusal::CutShares => 10,
            Refusal::MarketNumber => 11,
            Refusal::Quotation => 12,
            Refusal::SideCells => 13,
            Refusal::FileSize => 14,
            Refusal::Contents { .. } => 15,
            Refusal::Body { .. } => 16,
            Refusal::ShortListing => 17,
            Refusal::Take => 18,
        }
    }

    // The entry of the contents, or the body, at fault; 0 for the refusals that have none.
    pub fn index(self) -> u32
        ensures { result ≡ index_of self }
    {
        match self {
            Refusal::Contents { index, .. } | Refusal::Body { index, .. } => index,
            _ => 0,
        }
    }

    // The place in the file of what is at fault; 0 for the refusals that have none. Reading one field
    // each, the two are plainer apart.
    pub fn place(self) -> u32
        ensures { result ≡ place_of self }
    {
        match self {
            Refusal::Contents { place, .. } | Refusal::Body { place, .. } => place,
            _ => 0,
        }
    }
}
