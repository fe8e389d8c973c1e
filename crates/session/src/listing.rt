// Writing the listing: a line for each call, a line for each of its rows, and the last line with
// the Liquidity Identifier.

use itoa::write_digits;
use market::types::Refusal;
use rules::types::{Accepted, Row};

// The bytes lent for a listing, and how many of them are written.
#[derive(Drop)]
pub struct Page<'a> {
    pub bytes: &'a mut [u8],
    pub written: usize,
}

impl<'a> Page<'a> {
    ghost use Rattle.std.specs.Prelude.{◌≡◌, ◌+◌, ◌≤◌, [], ◌∷◌, length, decimal};
    ghost use Rattle.session.specs.Listing.{figure_text, four_text, answer_text, row_text, rows_text, light_text, refusal_text};
    ghost use Rattle.session.specs.Pages.{HasRoom, Wrote};

    // A page on which nothing is written yet.
    pub fn new(bytes: &'a mut [u8]) -> Page<'a>
        ensures same_bytes { result.bytes.ghost_name ≡ bytes.entry.ghost_name }
        ensures bytes { result.bytes.now ≡ bytes.old }
        ensures written { result.written ≡ 0 }
    {
        Page { bytes, written: 0 }
    }

    fn byte(&mut self, b: u8)
        requires { HasRoom self.old (b ∷ []) }
        ensures { Wrote self.old self.new (b ∷ []) }
    {
        self.bytes[self.written] = b;
        self.written += 1;
    }

    fn text(&mut self, text: &[u8])
        requires { HasRoom self.old text.now }
        ensures { Wrote self.old self.new text.now }
    {
        // Byte by byte, since std's `copy_from_slice` needs `memmove`, which a C host may not have.
        for b in text {
            self.byte(*b);
        }
    }

    // A number in decimal. Its digits are written up to the place where they end.
    fn number(&mut self, n: u32)
        requires { HasRoom self.old (decimal n) }
        ensures { Wrote self.old self.new (decimal n) }
    {
        let end = self.written + n.max(1).ilog10() as usize + 1;
        let _ = write_digits(u64::from(n), self.bytes, end);
        self.written = end;
    }

    // A space and a number.
    fn figure(&mut self, n: u32)
        requires { HasRoom self.old (figure_text n) }
        ensures { Wrote self.old self.new (figure_text n) }
    {
        self.byte(b' ');
        self.number(n);
    }

    // Four figures and a line feed.
    fn four(&mut self, a: u32, b: u32, c: u32, d: u32)
        requires { HasRoom self.old (four_text a b c d) }
        ensures { Wrote self.old self.new (four_text a b c d) }
    {
        self.figure(a);
        self.figure(b);
        self.figure(c);
        self.figure(d);
        self.byte(b'\n');
    }

    // The line of a call: its label, its answer and three figures.
    pub fn answer(&mut self, label: &[u8], answer: Result<Accepted, Refusal>)
        requires { HasRoom self.old (answer_text label.now answer) }
        ensures { Wrote self.old self.new (answer_text label.now answer) }
    {
        self.text(label);
        match answer {
            Ok(a) => self.four(0, a.arrival, a.open, a.cancelled),
            Err(refusal) => self.four(refusal.number(), 0, 0, 0),
        }
    }

    // A row: its letter and four figures.
    fn row(&mut self, row: &Row)
        requires { HasRoom self.old (row_text row.now) }
        ensures { Wrote self.old self.new (row_text row.now) }
    {
        match *row {
            Row::Fill {
                incoming,
                resting,
                price,
                shares,
            } => {
                self.byte(b'F');
                self.four(incoming, resting, price, shares);
            }
            Row::Route {
                arrival,
                market,
                price,
                shares,
            } => {
                self.byte(b'R');
                self.four(arrival, market, price, shares);
            }
        }
    }

    pub fn rows(&mut self, rows: &[Row])
        requires { HasRoom self.old (rows_text rows.now) }
        ensures { Wrote self.old self.new (rows_text rows.now) }
    {
        for row in rows {
            self.row(row);
        }
    }

    // The last line: whether the Liquidity Identifier is lit.
    pub fn light(&mut self, lit: bool)
        requires { HasRoom self.old (light_text lit) }
        ensures { Wrote self.old self.new (light_text lit) }
    {
        if lit {
            self.text(b"LI 1\n");
        } else {
            self.text(b"LI 0\n");
        }
    }

    // The line of a refusal, of at most 37 bytes.
    #[tactic(auto, using(crate::proofs::Lengths::figure_fits))]
    pub fn refusal(&mut self, refusal: Refusal)
        requires { self.old.written + 37 ≤ length self.old.bytes.now }
        ensures wrote { Wrote self.old self.new (refusal_text refusal) }
        ensures short { length (refusal_text refusal) ≤ 37 }
    {
        self.text(b"BAD");
        self.figure(refusal.number());
        self.figure(refusal.index());
        self.figure(refusal.place());
        self.byte(b'\n');
    }
}
