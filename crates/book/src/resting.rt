// The orders that rest in the cells that a call is handed, and the search for one of them.
ghost use Rattle.std.specs.Prelude.{◌≡◌, ◌<◌, length, take, Some, Ok, Err, IfSome, OnOk};
ghost use Rattle.std.specs.Option.{option_or};
ghost use Rattle.std.specs.Result.{result_err};
ghost use Rattle.board.specs.Quotes.{Quotes};
ghost use Rattle.rules.specs.Calls.{located, on_side, of_arrival, at_rest, cells_refusal, cancel_refusal};
ghost use Rattle.book.specs.Counts.{count_of, side_of};
ghost use Rattle.book.specs.Held.{held, HasCells};

use super::book::Book;
use super::limits::CELLS;
use market::types::{Refusal, Side};
use rules::types::{Located, Order};
use shelf::find;

// Each side handed in has its 128 cells, or the call is sent back.
pub fn check_cells(bids: &[Order], offers: &[Order]) -> Result<(), Refusal>
    ensures value { result_err result ≡ cells_refusal (length bids.now) (length offers.now) }
    ensures passes { OnOk result (HasCells bids.now offers.now) }
{
    if bids.len() != CELLS || offers.len() != CELLS {
        return Err(Refusal::SideCells);
    }
    Ok(())
}

// The order of an arrival on one side, with its place there.
#[tactic(auto, using(crate::proofs::Searches::first_within))]
fn find_on(side: Side, standing: &[Order], arrival: u32) -> Option<Located>
    ensures value { result ≡ on_side side (of_arrival arrival standing.now) }
    ensures within { IfSome result (λ l. (l.side ≡ side) × (l.place < length standing.now)) }
{
    let found = find(standing, arrival)?;
    Some(Located {
        side,
        place: found.place,
        order: found.item,
    })
}

// The resting order of an arrival, with its side and its place there.
pub fn locate(arrival: u32, bids: &[Order], offers: &[Order]) -> Option<Located>
    ensures value { result ≡ located arrival bids.now offers.now }
    ensures within { IfSome result (λ l. l.place < length (side_of l.side bids.now offers.now)) }
{
    find_on(Side::Buy, bids, arrival).or_else(|| find_on(Side::Sell, offers, arrival))
}

impl<R> Book<R> {
    // The orders of both sides, bids and offers, in the cells that a call is handed.
    pub(crate) fn resting<'a>(
        &self,
        bids: &'a [Order],
        offers: &'a [Order],
    ) -> Result<(&'a [Order], &'a [Order]), Refusal>
        ensures value { elim result [ Ok r ↦ (r.0.now ≡ take self.now.bids bids.now) × (r.1.now ≡ take self.now.offers offers.now) | Err e ↦ Unit {0} ] }
        ensures refusal { result_err result ≡ cells_refusal (length bids.now) (length offers.now) }
        ensures passes { OnOk result (HasCells bids.now offers.now) }
    {
        check_cells(bids, offers)?;
        Ok((&bids[..self.bids], &offers[..self.offers]))
    }

    // The resting order that a call changes.
    pub(crate) fn at_rest(
        &self,
        arrival: u32,
        bids: &[Order],
        offers: &[Order],
    ) -> Result<Located, Refusal>
        ensures value { (b : Quotes) → elim result [ Ok l ↦ Some l ≡ at_rest arrival (held self.now bids.now offers.now b) | Err e ↦ Unit {0} ] }
        ensures refusal { (b : Quotes) → result_err result ≡ option_or (cells_refusal (length bids.now) (length offers.now)) (cancel_refusal (at_rest arrival (held self.now bids.now offers.now b))) }
        ensures passes { elim result [ Ok l ↦ HasCells bids.now offers.now × (l.place < count_of l.side self.now.bids self.now.offers) | Err e ↦ Unit {0} ] }
    {
        let (bids, offers) = self.resting(bids, offers)?;
        locate(arrival, bids, offers).ok_or(Refusal::NotResting)
    }
}
