// One call of the four that change a market, with everything that a call is handed.
ghost use Rattle.std.specs.Prelude.{◌≡◌, true, List, [], length};
ghost use Rattle.rules.specs.declared.types.Row.{Row};
ghost use Rattle.rules.specs.Calls.{cells_ok, cells_refusal, decided, outcome, rows_in, RowsKept, terms, apply, post};
ghost use Rattle.book.specs.Held.{held, CellsKept};
ghost use Rattle.book.specs.Tapes.{GoesOnFairly};

use super::book::Book;
use super::resting::check_cells;
use board::Board;
use market::types::{Refusal, Side};
use rules::ranking::Ranking;
use rules::types::{Accepted, Call, Order, Row};

impl<R: Ranking + Copy> Book<R> {
    // Posts a quotation on the board: the book and its sides stay as they are.
    fn post<B: Board>(
        &self,
        market: u32,
        side: Side,
        price: u32,
        shares: u32,
        bids: &[Order],
        offers: &[Order],
        board: &mut B,
    ) -> Result<Accepted, Refusal>
        ensures outcome { outcome result [] (held self.now bids.now offers.now (B.quotes board.new)) ≡ decided (cells_refusal (length bids.now) (length offers.now)) (held self.now bids.now offers.now (B.quotes board.old)) (post (held self.now bids.now offers.now (B.quotes board.old)) market side price shares) }
        ensures rows { (report : List Row) → (rows_in result report ≡ []) × RowsKept result report report }
    {
        check_cells(bids, offers)?;
        board.post(market, side, price, shares)?;
        Ok(Accepted {
            arrival: 0,
            open: 0,
            cancelled: 0,
            rows: 0,
        })
    }

    // Makes the call, of whichever kind it is.
    fn make_call<B: Board>(
        &mut self,
        call: Call,
        bids: &mut [Order],
        offers: &mut [Order],
        board: &mut B,
        report: &mut [Row],
    ) -> Result<Accepted, Refusal>
        ensures outcome { outcome result (rows_in result report.new) (held self.new bids.new offers.new (B.quotes board.new)) ≡ decided (cells_refusal (length bids.old) (length offers.old)) (held self.old bids.old offers.old (B.quotes board.old)) (apply (terms (R.ranked self.old.ranking)) (held self.old bids.old offers.old (B.quotes board.old)) call (length report.old)) }
        ensures cells { CellsKept result self.old self.new bids.old bids.new offers.old offers.new }
        ensures rows { RowsKept result report.old report.new }
    {
        match call {
            Call::Enter {
                side,
                price,
                kind,
                shares,
            } => self.enter(side, price, kind, shares, bids, offers, board, report),
            Call::Cut { arrival, shares } => self.cut(arrival, shares, bids, offers),
            Call::Cancel { arrival } => self.cancel(arrival, bids, offers),
            Call::Post {
                market,
                side,
                price,
                shares,
            } => self.post(market, side, price, shares, bids, offers, board),
        }
    }

    // Makes one call. Beside what the rules say of it, its contract has the law of the tape:
    // whatever calls led from a fresh book to the market at entry, over any lawful start of the
    // board, the tape of those calls and this one passes the judge at every entry.
    pub fn apply<B: Board>(
        &mut self,
        call: Call,
        bids: &mut [Order],
        offers: &mut [Order],
        board: &mut B,
        report: &mut [Row],
    ) -> Result<Accepted, Refusal>
        ensures outcome { outcome result (rows_in result report.new) (held self.new bids.new offers.new (B.quotes board.new)) ≡ decided (cells_refusal (length bids.old) (length offers.old)) (held self.old bids.old offers.old (B.quotes board.old)) (apply (terms (R.ranked self.old.ranking)) (held self.old bids.old offers.old (B.quotes board.old)) call (length report.old)) }
        ensures cells { CellsKept result self.old self.new bids.old bids.new offers.old offers.new }
        ensures rows { RowsKept result report.old report.new }
        ensures tape { cells_ok (length bids.old) (length offers.old) ≡ true → GoesOnFairly (R.ranked self.old.ranking) (held self.old bids.old offers.old (B.quotes board.old)) call (length report.old) (outcome result (rows_in result report.new) (held self.new bids.new offers.new (B.quotes board.new))) }
    {
        self.make_call(call, bids, offers, board, report)
    }
}
