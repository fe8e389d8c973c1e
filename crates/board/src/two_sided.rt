// A board of two sides, whatever keeps each of them: the plate and the ladder are boards of this kind.
ghost use Rattle.std.specs.Prelude.{◌≡◌, ℕ, true, None};
ghost use Rattle.market.specs.declared.types.Side.TheVariants.{Buy, Sell};
ghost use Rattle.market.specs.Words.{same_side};
ghost use Rattle.board.specs.Quotes.{market_ok, quote_ok, with_quote};
ghost use Rattle.board.specs.Sides.{both_sides};
ghost use Rattle.board.specs.SidesLemmas.{both_lawful};

use super::Board;
use super::quotes::{posting, taking};
use super::side::BoardSide;
use super::types::{Best, Quote};
use market::types::{Refusal, Side};

#[derive(Drop)]
pub struct TwoSided<S: BoardSide> {
    bids: S,
    offers: S,
    ghost bids_buy: { same_side Buy (S.side_of bids) ≡ true },
    ghost offers_sell: { same_side Sell (S.side_of offers) ≡ true },
}

impl<S: BoardSide> TwoSided<S> {
    // A board with no quotation.
    pub fn new() -> TwoSided<S>
        ensures { (s : Side) (m : ℕ) → ⟦<Self as Board>⟧.quotes result s m ≡ None }
    {
        TwoSided {
            bids: S::new(Side::Buy),
            offers: S::new(Side::Sell),
        }
    }

    // The bids or the offers.
    fn half(&self, side: Side) -> &S
        ensures side { S.side_of result.now ≡ side }
        ensures quotes { S.quoted result.now ≡ ⟦<Self as Board>⟧.quotes self.now side }
    {
        match side {
            Side::Buy => &self.bids,
            Side::Sell => &self.offers,
        }
    }

    // Sets the quotation of a side and a market. The side is matched here too, since a `&mut` that a
    // match chooses gets no proof.
    fn set(&mut self, side: Side, market: u32, quote: Option<Quote>)
        requires listed { market_ok market ≡ true }
        requires ranged { quote_ok quote ≡ true }
        ensures { ⟦<Self as Board>⟧.quotes self.new ≡ with_quote (⟦<Self as Board>⟧.quotes self.old) side market quote }
    {
        match side {
            Side::Buy => self.bids.set(market, quote),
            Side::Sell => self.offers.set(market, quote),
        }
    }
}

impl<S: BoardSide> Board for TwoSided<S> {
    ghost quotes = { λ b. both_sides (S.quoted b.bids) (S.quoted b.offers) };

    ghost lawful = { λ b. both_lawful _ _ (S.lawful b.bids) (S.lawful b.offers) };

    fn post(&mut self, market: u32, side: Side, price: u32, shares: u32) -> Result<(), Refusal> {
        let quote = posting(market, price, shares)?;
        self.set(side, market, quote);
        Ok(())
    }

    fn take(&mut self, market: u32, side: Side, shares: u32) -> Result<(), Refusal> {
        let left = taking(market, self.look(market, side), shares)?;
        self.set(side, market, left);
        Ok(())
    }

    fn best(&self, side: Side) -> Option<Best> {
        self.half(side).best()
    }

    fn look(&self, market: u32, side: Side) -> Option<Quote> {
        self.half(side).look(market)
    }
}
