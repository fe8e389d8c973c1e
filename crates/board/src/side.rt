// One side of a board: for each market 1 to 16, nothing or one protected quotation. It is no part
// of what a renter brings, which is a whole board.
ghost use Rattle.std.specs.Prelude.{◌≡◌, ℕ, true, None, Option};
ghost use Rattle.market.specs.declared.types.Side.{Side};
ghost use Rattle.board.specs.declared.types.Quote.{Quote};
ghost use Rattle.board.specs.Quotes.{market_ok, quote_ok};
ghost use Rattle.board.specs.Sides.{with_level, side_best, LawfulSide};

use super::types::{Best, Quote};
use market::types::Side;

pub trait BoardSide {
    ghost side_of: { Self → Side };

    ghost quoted: { Self → ℕ → Option Quote };

    // A side with no quotation.
    fn new(side: Side) -> Self
        ensures side { side_of result ≡ side }
        ensures none { (m : ℕ) → quoted result m ≡ None };

    // Sets the quotation of a market.
    fn set(&mut self, market: u32, quote: Option<Quote>)
        requires listed { market_ok market ≡ true }
        requires ranged { quote_ok quote ≡ true }
        ensures quotes { quoted self.new ≡ with_level (quoted self.old) market quote }
        ensures same { side_of self.new ≡ side_of self.old };

    // The highest bid or the lowest offer, of the lowest market among equals.
    fn best(&self) -> Option<Best>
        ensures { result ≡ side_best (side_of self.now) (quoted self.now) };

    // The quotation of one market, whatever its number.
    fn look(&self, market: u32) -> Option<Quote>
        ensures { result ≡ quoted self.now market };

    ghost lawful: { (h : Self) → LawfulSide (quoted h) };
}
