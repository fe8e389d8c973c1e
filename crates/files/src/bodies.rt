// What a body says, read field by field.
ghost use Rattle.std.specs.Prelude.{◌≡◌, ◌∷◌, true, Some, None};
ghost use Rattle.shelf.specs.Standing.{nth};
ghost use Rattle.files.specs.Cursors.{left_in};
ghost use Rattle.files.specs.Fields.{is_label};
ghost use Rattle.files.specs.Lines.{line_in, said, label_in, kind_from, new_of, cut_of, cancel_of, post_of, read_line, only_at, past, Says};

use crate::cursors::Fields;
use crate::fields::{Field, is_a_label};
use crate::types::{Body, KindLetter, Letter};
use market::types::Side;
use rules::types::Kind;

impl<'a> Fields<'a> {
    // What the next field says.
    fn read<T: Field>(&mut self) -> Option<T>
        ensures { elim result [ None ↦ said T.says 0 (left_in self.old) ≡ None | Some v ↦ Says T.says (left_in self.old) v (left_in self.new) ] }
    {
        let (_, field) = self.next()?;
        T::read(field).ok()
    }

    // The next field, where it is a label.
    fn label(&mut self) -> Option<&'a [u8]>
        ensures { elim result [ None ↦ label_in (nth 0 (left_in self.old)) ≡ None | Some w ↦ (left_in self.old ≡ w.now ∷ left_in self.new) × (is_label w.now ≡ true) ] }
    {
        let (_, field) = self.next()?;
        is_a_label(field).then_some(field)
    }
}

fn ilo(mut fields: Fields<'_>) -> Option<Kind>
    ensures { result ≡ kind_from (past 6 (left_in fields.entry)) KindLetter.Ilo }
{
    let routing = fields.read()?;
    let mtv = fields.read()?;
    let mark = fields.read()?;
    fields.at_end(Kind::Ilo { routing, mtv, mark })
}

// The kind of a letter, with the fields of an ILO that stand behind the shares.
fn kind_of(letter: KindLetter, fields: Fields<'_>) -> Option<Kind>
    ensures { result ≡ kind_from (past 6 (left_in fields.entry)) letter }
{
    match letter {
        KindLetter::Displayed => fields.at_end(Kind::Displayed),
        KindLetter::Dark => fields.at_end(Kind::Dark),
        KindLetter::Olo => fields.at_end(Kind::Olo),
        KindLetter::Ilo => ilo(fields),
    }
}

fn new_order(mut fields: Fields<'_>) -> Option<Body<'_>>
    ensures { line_in result ≡ new_of (past 1 (left_in fields.entry)) }
{
    let label = fields.label()?;
    let letter = fields.read()?;
    let side = fields.read()?;
    let price = fields.read()?;
    let shares = fields.read()?;
    let kind = kind_of(letter, fields)?;
    Some(Body::New {
        label,
        side,
        price,
        kind,
        shares,
    })
}

fn cut(mut fields: Fields<'_>) -> Option<Body<'_>>
    ensures { line_in result ≡ cut_of (past 1 (left_in fields.entry)) }
{
    let arrival = fields.read()?;
    let shares = fields.read()?;
    fields.at_end(Body::Cut { arrival, shares })
}

fn cancel(mut fields: Fields<'_>) -> Option<Body<'_>>
    ensures { line_in result ≡ cancel_of (past 1 (left_in fields.entry)) }
{
    let arrival = fields.read()?;
    fields.at_end(Body::Cancel { arrival })
}

fn post(mut fields: Fields<'_>) -> Option<Body<'_>>
    ensures { line_in result ≡ post_of (past 1 (left_in fields.entry)) }
{
    let market = fields.read()?;
    let side = fields.read()?;
    let price = fields.read()?;
    let shares = fields.read()?;
    fields.at_end(Body::Post {
        market,
        side,
        price,
        shares,
    })
}

#[tactic(auto, unfolding(crate::specs::Lines::read_line))]
pub fn read_body(body: &[u8]) -> Option<Body<'_>>
    ensures { line_in result ≡ read_line body.now }
{
    let mut fields = Fields::of(body);
    let letter = fields.read()?;
    match letter {
        Letter::New => new_order(fields),
        Letter::Cut => cut(fields),
        Letter::Cancel => cancel(fields),
        Letter::Post => post(fields),
    }
}
