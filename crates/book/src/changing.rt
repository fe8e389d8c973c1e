// Cutting and cancelling a resting order.
ghost use Rattle.std.specs.Prelude.{◌≡◌, ◌<◌, ◌≤◌, List, [], length};
ghost use Rattle.board.specs.Quotes.{Quotes};
ghost use Rattle.rules.specs.declared.types.Row.{Row};
ghost use Rattle.rules.specs.Calls.{leaves, cut_down, taken_off, put_on, cells_refusal, decided, outcome, terms, cancel, cut, rows_in, RowsKept};
ghost use Rattle.book.specs.Counts.{count_of};
ghost use Rattle.book.specs.Held.{held, CellsKept, HasCells, SameBehind};

use super::book::Book;
use super::kinds::is_too_small;
use market::types::{Refusal, Side};
use rules::ranking::{Ranking, Sided};
use rules::types::{Accepted, Located, Order};
use shelf::Shelf;

// Whether a cut takes the order off: nothing stays open, or its ranking size falls below the least.
fn leaves(order: &Order, shares: u32) -> bool
    ensures { result ≡ leaves shares order.now }
{
    order.open <= shares || is_too_small(order.kind, order.price, order.size.saturating_sub(shares))
}

// An order with shares cut off what is open and off its ranking size alike.
fn cut_down(order: &Order, shares: u32) -> Order
    ensures { result ≡ cut_down shares order.now }
{
    Order {
        size: order.size.saturating_sub(shares),
        open: order.open.saturating_sub(shares),
        ..*order
    }
}

// The answer of a call that takes an order off.
fn gone(order: &Order) -> Accepted
    ensures { result ≡ record { arrival = order.now.arrival; «open» = 0; cancelled = order.now.«open»; rows = 0 } }
{
    Accepted {
        arrival: order.arrival,
        open: 0,
        cancelled: order.open,
        rows: 0,
    }
}

impl<R: Ranking + Copy> Book<R> {
    // Takes a resting order off its side.
    fn take_off(&mut self, at: &Located, bids: &mut [Order], offers: &mut [Order])
        requires { HasCells bids.old offers.old × (at.now.place < count_of at.now.side self.old.bids self.old.offers) }
        ensures market { (b : Quotes) → held self.new bids.new offers.new b ≡ taken_off (held self.old bids.old offers.old b) at.now }
        ensures fewer { (self.new.bids ≤ self.old.bids) × (self.new.offers ≤ self.old.offers) }
        ensures room { count_of at.now.side self.new.bids self.new.offers < 128 }
        ensures ranking { self.new.ranking ≡ self.old.ranking }
        ensures bids { SameBehind self.old.bids self.new.bids bids.old bids.new }
        ensures offers { SameBehind self.old.offers self.new.offers offers.old offers.new }
    {
        let mut bids = Shelf::over(bids, self.bids);
        let mut offers = Shelf::over(offers, self.offers);
        // No `&mut` that a `match` chose is followed, so each arm makes the call.
        match at.side {
            Side::Buy => bids.take_out(at.place).unwrap(),
            Side::Sell => offers.take_out(at.place).unwrap(),
        }
        self.bids = bids.count();
        self.offers = offers.count();
    }

    // Puts an order on a side.
    fn put_on(&mut self, side: Side, order: Order, bids: &mut [Order], offers: &mut [Order])
        requires { HasCells bids.old offers.old × (count_of side self.old.bids self.old.offers < 128) }
        ensures market { (b : Quotes) → held self.new bids.new offers.new b ≡ put_on (R.ranked self.old.ranking) side order (held self.old bids.old offers.old b) }
        ensures ranking { self.new.ranking ≡ self.old.ranking }
        ensures bids { SameBehind self.old.bids self.new.bids bids.old bids.new }
        ensures offers { SameBehind self.old.offers self.new.offers offers.old offers.new }
    {
        let precedence = Sided {
            side,
            ranking: self.ranking,
        };
        let mut bids = Shelf::over(bids, self.bids);
        let mut offers = Shelf::over(offers, self.offers);
        // As in `take_off`, each arm makes the call.
        match side {
            Side::Buy => bids.put(&precedence, order).unwrap(),
            Side::Sell => offers.put(&precedence, order).unwrap(),
        }
        self.bids = bids.count();
        self.offers = offers.count();
    }

    // Takes a resting order off.
    pub fn cancel(
        &mut self,
        arrival: u32,
        bids: &mut [Order],
        offers: &mut [Order],
    ) -> Result<Accepted, Refusal>
        ensures outcome { (b : Quotes) → outcome result [] (held self.new bids.new offers.new b) ≡ decided (cells_refusal (length bids.old) (length offers.old)) (held self.old bids.old offers.old b) (cancel (held self.old bids.old offers.old b) arrival) }
        ensures cells { CellsKept result self.old self.new bids.old bids.new offers.old offers.new }
        ensures rows { (report : List Row) → (rows_in result report ≡ []) × RowsKept result report report }
    {
        let at = self.at_rest(arrival, bids, offers)?;
        self.take_off(&at, bids, offers);
        Ok(gone(&at.order))
    }

    // Lowers a resting order's open shares and ranking size alike. It keeps its arrival, and leaves
    // where nothing stays open or too small a size.
    pub fn cut(
        &mut self,
        arrival: u32,
        shares: u32,
        bids: &mut [Order],
        offers: &mut [Order],
    ) -> Result<Accepted, Refusal>
        ensures outcome { (b : Quotes) → outcome result [] (held self.new bids.new offers.new b) ≡ decided (cells_refusal (length bids.old) (length offers.old)) (held self.old bids.old offers.old b) (cut (terms (R.ranked self.old.ranking)) (held self.old bids.old offers.old b) arrival shares) }
        ensures cells { CellsKept result self.old self.new bids.old bids.new offers.old offers.new }
        ensures rows { (report : List Row) → (rows_in result report ≡ []) × RowsKept result report report }
    {
        let at = self.at_rest(arrival, bids, offers)?;
        if shares == 0 || shares > at.order.open {
            return Err(Refusal::CutShares);
        }
        self.take_off(&at, bids, offers);
        if leaves(&at.order, shares) {
            return Ok(gone(&at.order));
        }
        let left = cut_down(&at.order, shares);
        self.put_on(at.side, left, bids, offers);
        Ok(Accepted {
            arrival: left.arrival,
            open: left.open,
            cancelled: shares,
            rows: 0,
        })
    }
}
