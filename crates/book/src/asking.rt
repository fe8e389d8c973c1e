// The questions: an order's open shares, the standing list, and the Liquidity Identifier.
ghost use Rattle.std.specs.Prelude.{◌≡◌, ◌+◌, ◌≤◌, ◌||◌, ◌++◌, map, length, take, drop, Some, None, Ok, Err};
ghost use Rattle.std.specs.List.Sorted.{IsPermutation};
ghost use Rattle.board.specs.Quotes.{Quotes};
ghost use Rattle.rules.specs.Calls.{cells_refusal, list_refusal, open_shares, any_program, lit, standing_row, standing_rows};
ghost use Rattle.book.specs.Held.{held, asked_for, KeptFrom};

use super::book::Book;
use super::kinds::is_program;
use super::limits::LIST_ROWS;
use super::resting::locate;
use market::types::{Refusal, Side};
use rules::ranking::Ranking;
use rules::types::{Order, Standing};

fn has_program(orders: &[Order]) -> bool
    ensures { result ≡ any_program orders.now }
{
    orders.iter().any(|order| is_program(order.kind))
}

fn standing_row(side: Side, order: &Order) -> Standing
    ensures { result ≡ standing_row side order.now }
{
    Standing {
        arrival: order.arrival,
        side,
        price: order.price,
        open: order.open,
    }
}

// Writes the rows of a side into a list from a place on, and answers the place behind them.
fn write_side(side: Side, orders: &[Order], rows: &mut [Standing], at: usize) -> usize
    requires { at + length orders.now ≤ length rows.old }
    ensures value { result ≡ at + length orders.now }
    ensures rows { take result rows.new ≡ take at rows.old ++ map (standing_row side) orders.now }
    ensures behind { KeptFrom result rows.old rows.new }
{
    // By place, since a proof does not know what is written through a zip with `iter_mut`.
    for (i, order) in orders.iter().enumerate() {
        rows[at + i] = standing_row(side, order);
    }
    at + orders.len()
}

impl<R: Ranking + Copy> Book<R> {
    // An order's open shares, 0 if it does not rest.
    pub fn open(&self, arrival: u32, bids: &[Order], offers: &[Order]) -> Result<u32, Refusal>
        ensures { (b : Quotes) → result ≡ asked_for (cells_refusal (length bids.now) (length offers.now)) (open_shares (held self.now bids.now offers.now b) arrival) }
    {
        let (bids, offers) = self.resting(bids, offers)?;
        Ok(locate(arrival, bids, offers).map_or(0, |at| at.order.open))
    }

    // Whether the Liquidity Identifier is lit: a Program order rests.
    pub fn light(&self, bids: &[Order], offers: &[Order]) -> Result<bool, Refusal>
        ensures { (b : Quotes) → result ≡ asked_for (cells_refusal (length bids.now) (length offers.now)) (lit (held self.now bids.now offers.now b)) }
    {
        let (bids, offers) = self.resting(bids, offers)?;
        Ok(has_program(bids) || has_program(offers))
    }

    // Writes each resting order once, and answers their count. In which order they stand in the
    // list is left open: it is the one place where two answers are allowed.
    pub fn list(
        &self,
        bids: &[Order],
        offers: &[Order],
        rows: &mut [Standing],
    ) -> Result<usize, Refusal>
        ensures { (b : Quotes) → elim result [ Ok n ↦ (n ≡ length (standing_rows (held self.now bids.now offers.now b))) × IsPermutation (standing_rows (held self.now bids.now offers.now b)) (take n rows.new) × (drop n rows.new ≡ drop n rows.old) × (list_refusal (length bids.now) (length offers.now) (length rows.old) ≡ None) | Err e ↦ (list_refusal (length bids.now) (length offers.now) (length rows.old) ≡ Some e) × (rows.new ≡ rows.old) ] }
    {
        let (bids, offers) = self.resting(bids, offers)?;
        if rows.len() < LIST_ROWS {
            return Err(Refusal::ShortReport);
        }
        let count = write_side(Side::Buy, bids, rows, 0);
        Ok(write_side(Side::Sell, offers, rows, count))
    }
}
