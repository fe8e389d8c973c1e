// The board of away quotations: for each side and each market 1 to 16, nothing or one protected
// quotation. A renter may bring a board of his own, and everything above is proved for each that
// keeps this contract.
#![tactic(auto)]

ghost use Rattle.std.specs.Prelude.{◌≡◌};
ghost use Rattle.board.specs.Quotes.{Quotes, Lawful, with_quote, post_answer, posted, if_ok, take_answer, lowered, best_in};

pub mod ladder;
pub mod plate;
pub mod quotes;
mod side;
mod two_sided;
pub mod types;

use market::types::{Refusal, Side};
use types::{Best, Quote};

pub trait Board {
    ghost quotes: { Self → Quotes };

    // Sets the quotation of a market; shares 0 at price 0 removes it.
    fn post(&mut self, market: u32, side: Side, price: u32, shares: u32) -> Result<(), Refusal>
        ensures answer { result ≡ post_answer market price shares }
        ensures after { quotes self.new ≡ if_ok result (with_quote (quotes self.old) side market (posted price shares)) (quotes self.old) };

    // Lowers the quotation of a market, which is gone when no shares are left.
    fn take(&mut self, market: u32, side: Side, shares: u32) -> Result<(), Refusal>
        ensures answer { result ≡ take_answer market (quotes self.old side market) shares }
        ensures after { quotes self.new ≡ if_ok result (with_quote (quotes self.old) side market (lowered (quotes self.old side market) shares)) (quotes self.old) };

    // The highest bid or the lowest offer, of the lowest market among equals.
    fn best(&self, side: Side) -> Option<Best>
        ensures { result ≡ best_in (quotes self.now) side };

    // The quotation of one market, whatever its number.
    fn look(&self, market: u32, side: Side) -> Option<Quote>
        ensures { result ≡ quotes self.now side market };

    ghost lawful: { (b : Self) → Lawful (quotes b) };
}
