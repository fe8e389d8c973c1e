// An entry: sent back, or swept against the other side, and its residue rested or cancelled.
ghost use Rattle.std.specs.Prelude.{◌≡◌, ◌+◌, ◌<◌, ◌≤◌, true, false, length, take, Some, Ok, Err, OnOk};
ghost use Rattle.std.specs.Result.{result_err};
ghost use Rattle.board.specs.Quotes.{Quotes};
ghost use Rattle.rules.specs.Orders.{cancels};
ghost use Rattle.rules.specs.Sweeps.{standing, swept, with_open, measured_sweep};
ghost use Rattle.rules.specs.Calls.{cells_ok, cells_refusal, enter_refusal, own_after, entered, decided, outcome, rows_in, RowsKept, terms, enter, fresh};
ghost use Rattle.book.specs.Counts.{count_of};
ghost use Rattle.book.specs.Held.{held, CellsKept, KeptFrom, orders, Shortened};

use super::book::Book;
use super::kinds::{is_cancelled, is_too_small, mtv_of};
use super::limits::{CELLS, MOST_ENTRIES, REPORT_ROWS};
use super::resting::check_cells;
use super::sweeping::{Swept, measured_sweep, with_open};
use board::Board;
use market::is_in_range;
use market::types::{Refusal, Side};
use rules::ranking::{Ranking, Sided};
use rules::types::{Accepted, Kind, Order, Row};
use shelf::{Shelf, empty};

// Sends an entry back by the first case, in the order of the checks, that holds of it.
#[tactic(auto, unfolding(rules::specs::Calls::enter_refusal))]
fn check_entry(incoming: &Order, arrivals: u32, count: usize, room: usize) -> Result<(), Refusal>
    ensures value { result_err result ≡ enter_refusal incoming.now arrivals count room }
    ensures passes { OnOk result ((144 ≤ room) × (arrivals < 1000000) × (cancels incoming.now.kind ≡ false → count < 128)) }
{
    let kind = incoming.kind;
    if room < REPORT_ROWS {
        return Err(Refusal::ShortReport);
    }
    if !is_in_range(incoming.price) {
        return Err(Refusal::Price);
    }
    if !is_in_range(incoming.size) {
        return Err(Refusal::Shares);
    }
    let small = is_too_small(kind, incoming.price, incoming.size);
    match kind {
        Kind::Olo if small => return Err(Refusal::SmallOlo),
        Kind::Ilo { .. } if small => return Err(Refusal::SmallIlo),
        _ => {}
    }
    if incoming.size < mtv_of(kind) {
        return Err(Refusal::LargeMtv);
    }
    if arrivals >= MOST_ENTRIES {
        return Err(Refusal::ArrivalsSpent);
    }
    if !is_cancelled(kind) && count >= CELLS {
        return Err(Refusal::SideFull);
    }
    Ok(())
}

// Rests the residue, or leaves the side as it is.
fn settle<R: Ranking + Copy>(ranking: R, left: &Order, own: &mut Shelf<'_, Order>)
    requires { cancels left.now.kind ≡ false → own.old.count < length own.old.cells.now }
    ensures same { own.new.cells.ghost_name ≡ own.old.cells.ghost_name }
    ensures stands { orders own.new ≡ own_after (R.ranked ranking) left.now (orders own.old) }
    ensures behind { KeptFrom own.new.count own.old.cells.now own.new.cells.now }
{
    if left.open == 0 || is_cancelled(left.kind) {
        return;
    }
    let order = Sided {
        side: left.side,
        ranking,
    };
    own.put(&order, *left).unwrap();
}

// Sweeps the other side and settles the residue on the entry's own.
fn trade<R: Ranking + Copy, B: Board>(
    ranking: R,
    incoming: &Order,
    own: &mut Shelf<'_, Order>,
    opp: &mut Shelf<'_, Order>,
    board: &mut B,
    report: &mut [Row],
) -> Swept
    requires { (cancels incoming.now.kind ≡ false → own.old.count < length own.old.cells.now) × ((opp.old.count ≤ 128) × (144 ≤ length report.old)) }
    ensures same { (own.new.cells.ghost_name ≡ own.old.cells.ghost_name) × (opp.new.cells.ghost_name ≡ opp.old.cells.ghost_name) }
    ensures swept { swept (take result.rows report.new) (standing (with_open result.«open» incoming.now) (orders own.old) (orders opp.new) (B.quotes board.new)) ≡ measured_sweep (standing incoming.now (orders own.old) (orders opp.old) (B.quotes board.old)) }
    ensures own { orders own.new ≡ own_after (R.ranked ranking) (with_open result.«open» incoming.now) (orders own.old) }
    ensures rows { (result.rows ≤ 144) × KeptFrom result.rows report.old report.new }
    ensures behind { Shortened opp.old opp.new × KeptFrom own.new.count own.old.cells.now own.new.cells.now }
{
    let swept = measured_sweep(incoming, board, own.standing(), opp, report);
    let residue = with_open(incoming, swept.open);
    settle(ranking, &residue, own);
    swept
}

// What an entry answers, by what its sweep left of it.
fn answer(left: &Order, rows: usize) -> Accepted
    ensures { result ≡ entered left.now rows }
{
    let (open, cancelled) = if is_cancelled(left.kind) {
        (0, left.open)
    } else {
        (left.open, 0)
    };
    Accepted {
        arrival: left.arrival,
        open,
        cancelled,
        rows,
    }
}

impl<R: Ranking + Copy> Book<R> {
    // Makes a fresh book: its sides are empty.
    pub fn make(ranking: R, bids: &[Order], offers: &[Order]) -> Result<Book<R>, Refusal>
        ensures { elim result [ Ok k ↦ (cells_ok (length bids.now) (length offers.now) ≡ true) × (k.ranking ≡ ranking) × ((b : Quotes) → held k bids.now offers.now b ≡ fresh b) | Err e ↦ Some e ≡ cells_refusal (length bids.now) (length offers.now) ] }
    {
        check_cells(bids, offers)?;
        Ok(Book {
            ranking,
            bids: empty(bids),
            offers: empty(offers),
            arrivals: 0,
        })
    }

    // How many orders rest on a side.
    fn count(&self, side: Side) -> usize
        ensures value { result ≡ count_of side self.now.bids self.now.offers }
        ensures within { result ≤ 128 }
    {
        match side {
            Side::Buy => self.bids,
            Side::Sell => self.offers,
        }
    }

    // Enters an order: sends it back, or sweeps, and rests or cancels the residue.
    pub fn enter<B: Board>(
        &mut self,
        side: Side,
        price: u32,
        kind: Kind,
        shares: u32,
        bids: &mut [Order],
        offers: &mut [Order],
        board: &mut B,
        report: &mut [Row],
    ) -> Result<Accepted, Refusal>
        ensures outcome { outcome result (rows_in result report.new) (held self.new bids.new offers.new (B.quotes board.new)) ≡ decided (cells_refusal (length bids.old) (length offers.old)) (held self.old bids.old offers.old (B.quotes board.old)) (enter (terms (R.ranked self.old.ranking)) (held self.old bids.old offers.old (B.quotes board.old)) side price kind shares (length report.old)) }
        ensures cells { CellsKept result self.old self.new bids.old bids.new offers.old offers.new }
        ensures rows { RowsKept result report.old report.new }
    {
        check_cells(bids, offers)?;
        let incoming = Order {
            arrival: self.arrivals + 1,
            side,
            price,
            kind,
            size: shares,
            open: shares,
        };
        check_entry(&incoming, self.arrivals, self.count(side), report.len())?;
        let ranking = self.ranking;
        let mut bids = Shelf::over(bids, self.bids);
        let mut offers = Shelf::over(offers, self.offers);
        // The borrow checker follows no `&mut` that a `match` chose, so each arm makes the call.
        let swept = match side {
            Side::Buy => trade(ranking, &incoming, &mut bids, &mut offers, board, report),
            Side::Sell => trade(ranking, &incoming, &mut offers, &mut bids, board, report),
        };
        self.bids = bids.count();
        self.offers = offers.count();
        self.arrivals += 1;
        Ok(answer(&with_open(&incoming, swept.open), swept.rows))
    }
}
