// Who may trade: the five conditions, the first resting order that meets them, and the volume that
// an MTV is measured by.
ghost use Rattle.std.specs.Prelude.{◌≡◌, ℕ, ◌+◌, ◌^◌, ◌<◌, ◌≤◌, ◌||◌, length, IfSome, nat_le};
ghost use Rattle.shelf.specs.Standing.{first};
ghost use Rattle.market.specs.declared.types.Side.TheVariants.{Buy, Sell};
ghost use Rattle.rules.specs.Orders.{type2};
ghost use Rattle.rules.specs.Trading.{within_limit, reaches_mtv, no_better, worse_than, all_worse, behind_displayed, resting_volume, quote_worth, away_volume, volume, bests, passes};
ghost use Rattle.book.specs.Asked.{asked};
ghost use Rattle.book.specs.Prices.{between, Bounds, four_between, worth_between, passes_between};

use super::kinds::{is_displayed, is_program, is_type2, kinds_meet, mtv_of};
use super::types::{Bests, Prices};
use board::Board;
use board::types::{Best, Quote};
use market::types::Side;
use market::{is_better, other};
use rules::types::Order;
use shelf::types::Placed;

// The best quotations of the incoming order's own side and of the other.
pub fn bests<B: Board>(board: &B, side: Side) -> Bests
    ensures { asked result ≡ bests (B.quotes board.now) side }
{
    Bests {
        own: board.best(side),
        other: board.best(other(side)),
    }
}

// First condition: the price is no worse than the incoming limit.
fn is_within_limit(incoming: &Order, price: u32) -> bool
    ensures { result ≡ within_limit incoming.now price }
{
    !is_better(incoming.side, price, incoming.price)
}

// Third condition: the resting order's MTV is at most what is open of the incoming one.
fn reaches_mtv(incoming: &Order, resting: &Order) -> bool
    ensures { result ≡ reaches_mtv incoming.now resting.now }
{
    mtv_of(resting.kind) <= incoming.open
}

// The lowest price that no better bid bars.
fn floor(best_bid: Option<Best>) -> u32
    ensures { (p : ℕ) → nat_le result p ≡ no_better best_bid Buy p }
{
    best_bid.map_or(0, |best| best.quote.price)
}

// The highest price that no better offer bars. Apart from `floor`, since it speaks of prices that fit 32
// bits alone.
fn ceiling(best_offer: Option<Best>) -> u32
    ensures { (p : ℕ) → p < 2 ^ 32 → nat_le p result ≡ no_better best_offer Sell p }
{
    best_offer.map_or(u32::MAX, |best| best.quote.price)
}

// The quotation of the other side that may bar an entry: a Type 2 routes to those and is not barred.
fn barring(incoming: &Order, best: Option<Best>) -> Option<Best>
    ensures { (s : Side) (p : ℕ) → no_better result s p ≡ (type2 incoming.now.kind || no_better best s p) }
{
    if is_type2(incoming.kind) {
        return None;
    }
    best
}

// First and fourth condition as bounds, found once for all resting orders: the price is no worse than
// the incoming limit, and no better quotation bars it.
fn prices(incoming: &Order, bests: &Bests) -> Prices
    ensures { Bounds incoming.now (asked bests.now) result }
{
    let other = barring(incoming, bests.other);
    match incoming.side {
        Side::Buy => Prices {
            low: floor(bests.own),
            high: incoming.price.min(ceiling(other)),
        },
        Side::Sell => Prices {
            low: incoming.price.max(floor(other)),
            high: ceiling(bests.own),
        },
    }
}

fn is_between(prices: &Prices, price: u32) -> bool
    ensures value { result ≡ between prices.now price }
    ensures fits { price < 2 ^ 32 }
{
    (prices.low..=prices.high).contains(&price)
}

// A displayed order is worse than a price for its side; other orders do not count.
fn is_worse(price: u32, order: &Order) -> bool
    ensures { result ≡ worse_than price order.now }
{
    !is_displayed(order.kind) || is_better(order.side, price, order.price)
}

fn all_worse(price: u32, orders: &[Order]) -> bool
    ensures { result ≡ all_worse price orders.now }
{
    // A loop, since `all` takes up to twice the time, and a long sweep spends most of its time here.
    for order in orders {
        if !is_worse(price, order) {
            return false;
        }
    }
    true
}

// Fifth condition: two Program orders trade at a better price than every displayed order has.
fn is_behind_displayed(incoming: &Order, own: &[Order], opp: &[Order], resting: &Order) -> bool
    ensures { result ≡ behind_displayed incoming.now own.now opp.now resting.now }
{
    !(is_program(incoming.kind) && is_program(resting.kind))
        || (all_worse(resting.price, opp) && all_worse(resting.price, own))
}

// Conditions one to four, which are also those of the measure.
fn passes_four(incoming: &Order, prices: &Prices, resting: &Order) -> bool
    ensures value { result ≡ four_between prices.now incoming.now resting.now }
    ensures fits { resting.now.price < 2 ^ 32 }
{
    is_between(prices, resting.price)
        && kinds_meet(incoming.kind, resting.kind)
        && reaches_mtv(incoming, resting)
}

#[tactic(auto, unfolding(crate::specs::Prices::passes_between))]
fn may_trade(
    incoming: &Order,
    prices: &Prices,
    own: &[Order],
    opp: &[Order],
    resting: &Order,
) -> bool
    ensures value { result ≡ passes_between prices.now incoming.now own.now opp.now resting.now }
    ensures fits { resting.now.price < 2 ^ 32 }
{
    passes_four(incoming, prices, resting) && is_behind_displayed(incoming, own, opp, resting)
}

// The first resting order of the other side that may trade, with its place.
pub fn choose(
    incoming: &Order,
    bests: &Bests,
    own: &[Order],
    opp: &[Order],
) -> Option<Placed<Order>>
    ensures value { result ≡ first (passes incoming.now (asked bests.now) own.now opp.now) opp.now 0 }
    ensures within { IfSome result (λ c. c.place < length opp.now) }
{
    let prices = prices(incoming, bests);
    let place = opp
        .iter()
        .position(|order| may_trade(incoming, &prices, own, opp, order))?;
    Some(Placed {
        place,
        item: opp[place],
    })
}

// The shares that a resting order adds to the volume.
#[tactic(auto, unfolding(crate::specs::Prices::worth_between))]
fn worth(incoming: &Order, prices: &Prices, resting: &Order) -> u32
    ensures value { result ≡ worth_between prices.now incoming.now resting.now }
    ensures fits { resting.now.price < 2 ^ 32 }
{
    if passes_four(incoming, prices, resting) {
        resting.open
    } else {
        0
    }
}

// The volume at rest: the open shares of all orders of the other side that pass conditions one to
// four.
fn resting_volume(incoming: &Order, bests: &Bests, opp: &[Order]) -> u64
    requires { length opp.now ≤ 128 }
    ensures value { result ≡ resting_volume incoming.now (asked bests.now) opp.now }
    ensures bound { result ≤ 549755813888 }
{
    let prices = prices(incoming, bests);
    // A loop, since the bound of a chain's sum did not close: no fact says that `open` fits 32 bits.
    let mut sum = 0u64;
    for order in opp {
        sum += u64::from(worth(incoming, &prices, order));
    }
    sum
}

// The shares that a quotation of the other side adds to the volume of a Type 2.
fn quote_worth(incoming: &Order, quote: Option<Quote>) -> u32
    ensures { result ≡ quote_worth incoming.now quote }
{
    match quote {
        Some(quote) if is_within_limit(incoming, quote.price) => quote.shares,
        _ => 0,
    }
}

// The volume away: for a Type 2, the quotations of the other side at its limit or better.
fn away_volume<B: Board>(incoming: &Order, board: &B) -> u64
    ensures value { result ≡ away_volume incoming.now (B.quotes board.now) }
    ensures bound { result ≤ 68719476736 }
{
    if !is_type2(incoming.kind) {
        return 0;
    }
    let mut sum = 0u64;
    for market in 1..=16 {
        let quote = board.look(market, other(incoming.side));
        sum += u64::from(quote_worth(incoming, quote));
    }
    sum
}

// The volume that an entry is measured by before it trades.
pub fn volume<B: Board>(incoming: &Order, board: &B, opp: &[Order]) -> u64
    requires { length opp.now ≤ 128 }
    ensures { result ≡ volume incoming.now opp.now (B.quotes board.now) }
{
    let bests = bests(board, incoming.side);
    resting_volume(incoming, &bests, opp) + away_volume(incoming, board)
}
