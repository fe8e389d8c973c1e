// The sweep of an entry: routes and fills, one at a time, until nothing is left of it or nothing
// may trade. The parameters are no struct: of a `&mut` that one keeps beside another, a caller does not
// learn what was left behind it. The other side is a shelf, which each fill makes shorter or leaves as
// long as it was.
ghost use Rattle.std.specs.Prelude.{◌≡◌, ◌-◌, ◌<◌, ◌≤◌, min, not, length, take, Some, None, nat_le};
ghost use Rattle.market.specs.Words.{opposite};
ghost use Rattle.rules.specs.declared.types.Row.TheVariants.{Fill, Route};
ghost use Rattle.rules.specs.Orders.{mtv_of};
ghost use Rattle.rules.specs.Trading.{volume};
ghost use Rattle.book.specs.Held.{KeptFrom, orders, Shortened};
ghost use Rattle.rules.specs.Sweeps.{with_open, taken, filled, standing, stepped, routed_first, next, sweep, swept, measured_sweep};

use super::eligible::{bests, choose, volume};
use super::kinds::{is_type2, mtv_of};
use super::limits::REPORT_ROWS;
use board::Board;
use board::types::Best;
use market::{is_better, other};
use rules::types::{Order, Row};
use shelf::Shelf;
use shelf::types::Placed;

// What a whole sweep leaves of an entry, with its count of rows.
#[derive(Clone, Copy)]
pub struct Swept {
    pub rows: usize,
    pub open: u32,
}

// An order with other shares open.
pub fn with_open(order: &Order, open: u32) -> Order
    ensures { result ≡ with_open «open» order.now }
{
    Order { open, ..*order }
}

// The quotation that a Type 2 takes before a fill at a price: the best of the other side, if it is
// strictly better.
fn routed_first(incoming: &Order, best: Option<Best>, price: u32) -> Option<Best>
    ensures { result ≡ routed_first incoming.now best price }
{
    best.filter(|best| {
        is_type2(incoming.kind) && is_better(other(incoming.side), best.quote.price, price)
    })
}

// Routes the lesser of what is open and what the quotation has. Answers the row, and what stays open.
fn route<B: Board>(incoming: &Order, board: &mut B, best: Best) -> (Row, u32)
    ensures row { result.0 ≡ Route incoming.now.arrival best.market best.quote.price (min incoming.now.«open» best.quote.shares) }
    ensures left { result.1 ≡ incoming.now.«open» - min incoming.now.«open» best.quote.shares }
    ensures quotes { B.quotes board.new ≡ taken (B.quotes board.old) (opposite incoming.now.side) best.market (min incoming.now.«open» best.quote.shares) }
{
    let shares = incoming.open.min(best.quote.shares);
    let _ = board.take(best.market, other(incoming.side), shares);
    let row = Row::Route {
        arrival: incoming.arrival,
        market: best.market,
        price: best.quote.price,
        shares,
    };
    (row, incoming.open - shares)
}

// Takes shares off a resting order, which leaves its side when nothing is left open.
fn lower(opp: &mut Shelf<'_, Order>, chosen: Placed<Order>, shares: u32)
    requires { chosen.place < opp.old.count }
    ensures same { opp.new.cells.ghost_name ≡ opp.old.cells.ghost_name }
    ensures stands { orders opp.new ≡ filled (orders opp.old) chosen shares }
    ensures behind { Shortened opp.old opp.new }
{
    if chosen.item.open <= shares {
        opp.take_out(chosen.place).unwrap();
    } else {
        let left = with_open(&chosen.item, chosen.item.open - shares);
        opp.replace(chosen.place, left).unwrap();
    }
}

// Fills the lesser of what is open of both orders. Answers the row, and what stays open.
fn fill(incoming: &Order, opp: &mut Shelf<'_, Order>, chosen: Placed<Order>) -> (Row, u32)
    requires { chosen.place < opp.old.count }
    ensures same { opp.new.cells.ghost_name ≡ opp.old.cells.ghost_name }
    ensures row { result.0 ≡ Fill incoming.now.arrival chosen.item.arrival chosen.item.price (min incoming.now.«open» chosen.item.«open») }
    ensures left { result.1 ≡ incoming.now.«open» - min incoming.now.«open» chosen.item.«open» }
    ensures stands { orders opp.new ≡ filled (orders opp.old) chosen (min incoming.now.«open» chosen.item.«open») }
    ensures behind { Shortened opp.old opp.new }
{
    let shares = incoming.open.min(chosen.item.open);
    lower(opp, chosen, shares);
    let row = Row::Fill {
        incoming: incoming.arrival,
        resting: chosen.item.arrival,
        price: chosen.item.price,
        shares,
    };
    (row, incoming.open - shares)
}

// One step: none where nothing is open or nothing may trade; else a route or a fill, with what stays
// open.
fn step<B: Board>(
    incoming: &Order,
    board: &mut B,
    own: &[Order],
    opp: &mut Shelf<'_, Order>,
) -> Option<(Row, u32)>
    ensures same { opp.new.cells.ghost_name ≡ opp.old.cells.ghost_name }
    ensures step { elim result [ None ↦ (next (standing incoming.now own.now (orders opp.old) (B.quotes board.old)) ≡ None) × (opp.new ≡ opp.old) × (B.quotes board.new ≡ B.quotes board.old) | Some t ↦ next (standing incoming.now own.now (orders opp.old) (B.quotes board.old)) ≡ Some (stepped t.0 (standing (with_open t.1 incoming.now) own.now (orders opp.new) (B.quotes board.new))) ] }
    ensures behind { Shortened opp.old opp.new }
{
    if incoming.open == 0 {
        return None;
    }
    let bests = bests(board, incoming.side);
    let chosen = choose(incoming, &bests, own, opp.standing())?;
    match routed_first(incoming, bests.other, chosen.item.price) {
        Some(best) => Some(route(incoming, board, best)),
        None => Some(fill(incoming, opp, chosen)),
    }
}

// The steps of a sweep, a row each and at most 144: each but the last takes an order or a quotation
// off.
fn sweep<B: Board>(
    incoming: &Order,
    board: &mut B,
    own: &[Order],
    opp: &mut Shelf<'_, Order>,
    report: &mut [Row],
) -> Swept
    requires { length report.old ≡ 144 }
    ensures same { opp.new.cells.ghost_name ≡ opp.old.cells.ghost_name }
    ensures swept { swept (take result.rows report.new) (standing (with_open result.«open» incoming.now) own.now (orders opp.new) (B.quotes board.new)) ≡ sweep 144 (standing incoming.now own.now (orders opp.old) (B.quotes board.old)) }
    ensures rows { (result.rows ≤ 144) × KeptFrom result.rows report.old report.new }
    ensures behind { Shortened opp.old opp.new }
{
    let mut open = incoming.open;
    for (rows, row) in report.iter_mut().enumerate() {
        let now = with_open(incoming, open);
        let Some((done, left)) = step(&now, board, own, opp) else {
            return Swept { rows, open };
        };
        *row = done;
        open = left;
    }
    Swept {
        rows: REPORT_ROWS,
        open,
    }
}

// Whether the volume is below the MTV of an entry. One without an MTV is not measured.
fn falls_short<B: Board>(incoming: &Order, board: &B, opp: &[Order]) -> bool
    requires { length opp.now ≤ 128 }
    ensures { result ≡ not (nat_le (mtv_of incoming.now.kind) (volume incoming.now opp.now (B.quotes board.now))) }
{
    let mtv = mtv_of(incoming.kind);
    mtv > 0 && volume(incoming, board, opp) < u64::from(mtv)
}

// An entry is measured first: with a volume below its MTV nothing trades.
pub fn measured_sweep<B: Board>(
    incoming: &Order,
    board: &mut B,
    own: &[Order],
    opp: &mut Shelf<'_, Order>,
    report: &mut [Row],
) -> Swept
    requires { (opp.old.count ≤ 128) × (144 ≤ length report.old) }
    ensures same { opp.new.cells.ghost_name ≡ opp.old.cells.ghost_name }
    ensures swept { swept (take result.rows report.new) (standing (with_open result.«open» incoming.now) own.now (orders opp.new) (B.quotes board.new)) ≡ measured_sweep (standing incoming.now own.now (orders opp.old) (B.quotes board.old)) }
    ensures rows { (result.rows ≤ 144) × KeptFrom result.rows report.old report.new }
    ensures behind { Shortened opp.old opp.new }
{
    if falls_short(incoming, board, opp.standing()) {
        return Swept {
            rows: 0,
            open: incoming.open,
        };
    }
    sweep(incoming, board, own, opp, &mut report[..REPORT_ROWS])
}
