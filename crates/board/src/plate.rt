// The plate: a board that holds each side's quotations in a table by market.
ghost use Rattle.std.specs.Prelude.{◌≡◌, ℕ, ◌+◌, ◌<◌, true, length, None, slice_index_or};
ghost use Rattle.board.specs.Quotes.{quote_ok};
ghost use Rattle.board.specs.Plates.{at_market, row_best};
ghost use Rattle.board.specs.PlatesLemmas.{table_lawful};

use super::quotes::better_of;
use super::side::BoardSide;
use super::two_sided::TwoSided;
use super::types::{Best, Quote};
use market::types::Side;

pub type Plate = TwoSided<Table>;

// One side. The best is kept, since a sweep asks for it far more often than a quotation changes. The side
// stands last: with a byte before the table, an empty one is copied by `memcpy`, which a C host may not
// have.
#[derive(Drop)]
pub struct Table {
    quotes: [Option<Quote>; 16],
    best: Option<Best>,
    side: Side,
    ghost long: { length quotes ≡ 16 },
    ghost sound: { (k : ℕ) → quote_ok (slice_index_or quotes k None) ≡ true },
    ghost kept: { best ≡ row_best side quotes },
}

// The best quotation of a side's table, of the lowest market among equals.
fn best_of(side: Side, row: &[Option<Quote>; 16]) -> Option<Best>
    ensures { result ≡ row_best side row.now }
{
    let mut best = None;
    for (place, quote) in row.iter().enumerate() {
        // Most markets have none, and then the best so far need not be looked at.
        if quote.is_none() {
            continue;
        }
        best = better_of(side, best, place as u32 + 1, *quote);
    }
    best
}

// The same, asking once which side it is: a post takes a quarter longer where the search asks at each
// market.
fn best_by_side(side: Side, row: &[Option<Quote>; 16]) -> Option<Best>
    ensures { result ≡ row_best side row.now }
{
    match side {
        Side::Buy => best_of(Side::Buy, row),
        Side::Sell => best_of(Side::Sell, row),
    }
}

impl BoardSide for Table {
    ghost side_of = { λ t. t.side };

    ghost quoted = { λ t. at_market t.quotes };

    ghost lawful = { λ t. table_lawful t.quotes t.long t.sound };

    #[tactic(auto, unfolding(crate::specs::Quotes::best_in))]
    fn new(side: Side) -> Table {
        Table {
            quotes: [None; 16],
            best: None,
            side,
        }
    }

    fn set(&mut self, market: u32, quote: Option<Quote>) {
        self.quotes[(market - 1) as usize] = quote;
        self.best = best_by_side(self.side, &self.quotes);
    }

    fn best(&self) -> Option<Best> {
        self.best
    }

    fn look(&self, market: u32) -> Option<Quote> {
        let place = market.checked_sub(1)?;
        *self.quotes.get(place as usize)?
    }
}
