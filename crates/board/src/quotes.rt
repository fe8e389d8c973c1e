// What every board asks of one quotation: which calls are sent back, what a post sets and what a
// take leaves.
ghost use Rattle.std.specs.Prelude.{◌≡◌, true, IfOk};
ghost use Rattle.board.specs.Quotes.{market_ok, better_of, shares_of, lowered, quote_ok, posted, post_answer, take_answer, answered};

use super::types::{Best, Quote};
use market::types::{Refusal, Side};
use market::{is_better, is_in_range};

pub fn is_market(market: u32) -> bool
    ensures { result ≡ market_ok market }
{
    (1..=16).contains(&market)
}

// The quotation that a post sets, or nothing where it removes one.
pub fn posting(market: u32, price: u32, shares: u32) -> Result<Option<Quote>, Refusal>
    ensures value { result ≡ answered (post_answer market price shares) (posted price shares) }
    ensures sound { IfOk result (λ q. (market_ok market ≡ true) × (quote_ok q ≡ true)) }
{
    if !is_market(market) {
        return Err(Refusal::MarketNumber);
    }
    if price == 0 && shares == 0 {
        return Ok(None);
    }
    if !is_in_range(price) || !is_in_range(shares) {
        return Err(Refusal::Quotation);
    }
    Ok(Some(Quote { price, shares }))
}

fn shares_of(quote: Option<Quote>) -> u32
    ensures { result ≡ shares_of quote }
{
    quote.map_or(0, |q| q.shares)
}

// What is left of a quotation when shares are taken.
fn lowered(quote: Option<Quote>, shares: u32) -> Option<Quote>
    ensures { result ≡ lowered quote shares }
{
    quote.filter(|q| q.shares > shares).map(|q| Quote {
        shares: q.shares - shares,
        ..q
    })
}

// What a take leaves of a market's quotation.
pub fn taking(market: u32, quote: Option<Quote>, shares: u32) -> Result<Option<Quote>, Refusal>
    ensures value { result ≡ answered (take_answer market quote shares) (lowered quote shares) }
    ensures sound { IfOk result (λ q. (market_ok market ≡ true) × (quote_ok quote ≡ true → quote_ok q ≡ true)) }
{
    if !is_market(market) {
        return Err(Refusal::MarketNumber);
    }
    if !(1..=shares_of(quote)).contains(&shares) {
        return Err(Refusal::Take);
    }
    Ok(lowered(quote, shares))
}

// The better of the best so far and one market's quotation; among equals what was there stays.
pub fn better_of(side: Side, best: Option<Best>, market: u32, quote: Option<Quote>) -> Option<Best>
    ensures { result ≡ better_of side best market quote }
{
    let Some(quote) = quote else {
        return best;
    };
    match best {
        Some(b) if !is_better(side, quote.price, b.quote.price) => best,
        _ => Some(Best { market, quote }),
    }
}
