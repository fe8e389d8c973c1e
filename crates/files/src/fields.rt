// The fields of a body: what each may be, and why it is malformed where it is not.
ghost use Rattle.std.specs.Prelude.{◌≡◌, ◌≤◌, List, ℕ, length, if◌then◌else◌, Some, None, Result};
ghost use Rattle.files.specs.declared.types.Fault.{Fault};
ghost use Rattle.files.specs.declared.types.Fault.TheVariants.{TooLong, NotANumber};
ghost use Rattle.files.specs.Fields.{Digits, LabelLetters, belongs, every, figure, number, is_label, sole, first_letter, kind_letter, side_letter, routing_digit, mark_letter, begun, sided, then_wanted, after, is_end, read_field};
ghost use Rattle.files.specs.declared.types.Wanted.TheVariants.{Label};

use crate::types::{Fault, KindLetter, Letter, Wanted};
use market::types::Side;
use rules::types::{Mark, Routing};

// A value that a field may say.
pub trait Field: Sized + Drop {
    // What a field says, or why it is malformed.
    ghost says: { List ℕ → Result Self Fault };

    fn read(field: &[u8]) -> Result<Self, Fault>
        ensures { result ≡ says field.now };
}

fn all_digits(field: &[u8]) -> bool
    ensures { result ≡ every (belongs Digits) field.now }
{
    field.iter().all(|b| b.is_ascii_digit())
}

// The number that at most seven digits write, in one pass: none where a byte is no digit.
fn figure_of(field: &[u8]) -> Option<u32>
    requires { length field.now ≤ 7 }
    ensures { result ≡ (if every (belongs Digits) field.now then Some (figure 0 field.now) else None) }
{
    let mut sum = 0u32;
    for b in field {
        if !b.is_ascii_digit() {
            return None;
        }
        sum = sum * 10 + (*b - b'0') as u32;
    }
    Some(sum)
}

// What is wrong with a number of more than seven bytes.
fn long_fault(field: &[u8]) -> Fault
    ensures { result ≡ (if every (belongs Digits) field.now then TooLong else NotANumber) }
{
    if all_digits(field) {
        Fault::TooLong
    } else {
        Fault::NotANumber
    }
}

impl Field for u32 {
    ghost says = { number };

    fn read(field: &[u8]) -> Result<u32, Fault> {
        if field.len() > 7 {
            return Err(long_fault(field));
        }
        match field {
            [] | [b'0', _, ..] => Err(Fault::NotANumber),
            _ => figure_of(field).ok_or(Fault::NotANumber),
        }
    }
}

fn all_label_letters(field: &[u8]) -> bool
    ensures { result ≡ every (belongs LabelLetters) field.now }
{
    field
        .iter()
        .all(|b| b.is_ascii_uppercase() || b.is_ascii_digit())
}

pub fn is_a_label(field: &[u8]) -> bool
    ensures { result ≡ is_label field.now }
{
    field.len() > 0 && field.len() <= 12 && all_label_letters(field)
}

// The letter of a field of exactly one byte. A field of more has no letter, whatever it begins with.
fn sole_letter(field: &[u8]) -> Option<char>
    ensures { result ≡ sole field.now }
{
    match field {
        [letter] => Some(char::from(*letter)),
        _ => None,
    }
}

impl Field for Letter {
    ghost says = { first_letter };

    fn read(field: &[u8]) -> Result<Letter, Fault> {
        match sole_letter(field) {
            Some('N') => Ok(Letter::New),
            Some('U') => Ok(Letter::Cut),
            Some('X') => Ok(Letter::Cancel),
            Some('Q') => Ok(Letter::Post),
            _ => Err(Fault::UnknownLetter),
        }
    }
}

impl Field for KindLetter {
    ghost says = { kind_letter };

    fn read(field: &[u8]) -> Result<KindLetter, Fault> {
        match sole_letter(field) {
            Some('L') => Ok(KindLetter::Displayed),
            Some('D') => Ok(KindLetter::Dark),
            Some('O') => Ok(KindLetter::Olo),
            Some('I') => Ok(KindLetter::Ilo),
            _ => Err(Fault::UnknownLetter),
        }
    }
}

impl Field for Side {
    ghost says = { side_letter };

    fn read(field: &[u8]) -> Result<Side, Fault> {
        match sole_letter(field) {
            Some('B') => Ok(Side::Buy),
            Some('S') => Ok(Side::Sell),
            _ => Err(Fault::UnknownLetter),
        }
    }
}

impl Field for Routing {
    ghost says = { routing_digit };

    fn read(field: &[u8]) -> Result<Routing, Fault> {
        match sole_letter(field) {
            Some('1') => Ok(Routing::Type1),
            Some('2') => Ok(Routing::Type2),
            _ => Err(Fault::UnknownLetter),
        }
    }
}

impl Field for Mark {
    ghost says = { mark_letter };

    fn read(field: &[u8]) -> Result<Mark, Fault> {
        match sole_letter(field) {
            Some('R') => Ok(Mark::Rest),
            Some('C') => Ok(Mark::Cancel),
            _ => Err(Fault::UnknownLetter),
        }
    }
}

// What stands behind the first letter of each call.
fn wanted_behind(letter: Letter) -> Wanted
    ensures { result ≡ begun letter }
{
    match letter {
        Letter::New => Wanted::Label,
        Letter::Cut => Wanted::CutArrival,
        Letter::Cancel => Wanted::CancelArrival,
        Letter::Post => Wanted::Market,
    }
}

fn wanted_for(kind: KindLetter) -> Wanted
    ensures { result ≡ sided kind }
{
    match kind {
        KindLetter::Displayed | KindLetter::Dark | KindLetter::Olo => Wanted::Side,
        KindLetter::Ilo => Wanted::IloSide,
    }
}

// What is wanted behind a field that has to say a `T`, which `next` tells.
fn then_wanted<T: Field>(field: &[u8], next: Wanted) -> Result<Wanted, Fault>
    ensures { result ≡ then_wanted (T.says field.now) (λ _. next) }
{
    T::read(field)?;
    Ok(next)
}

fn after_label(field: &[u8]) -> Result<Wanted, Fault>
    ensures { result ≡ after Label field.now }
{
    if is_a_label(field) {
        Ok(Wanted::Kind)
    } else {
        Err(Fault::BadLabel)
    }
}

// What is wanted behind a field, if it is what was wanted.
fn after_field(wanted: Wanted, field: &[u8]) -> Result<Wanted, Fault>
    ensures { result ≡ after wanted field.now }
{
    // An arm for each field, since each says a value of another type.
    match wanted {
        Wanted::First => Letter::read(field).map(wanted_behind),
        Wanted::Label => after_label(field),
        Wanted::Kind => KindLetter::read(field).map(wanted_for),
        Wanted::Side => then_wanted::<Side>(field, Wanted::Price),
        Wanted::Price => then_wanted::<u32>(field, Wanted::Shares),
        Wanted::Shares => then_wanted::<u32>(field, Wanted::End),
        Wanted::IloSide => then_wanted::<Side>(field, Wanted::IloPrice),
        Wanted::IloPrice => then_wanted::<u32>(field, Wanted::IloShares),
        Wanted::IloShares => then_wanted::<u32>(field, Wanted::Routing),
        Wanted::Routing => then_wanted::<Routing>(field, Wanted::Mtv),
        Wanted::Mtv => then_wanted::<u32>(field, Wanted::Mark),
        Wanted::Mark => then_wanted::<Mark>(field, Wanted::End),
        Wanted::CutArrival => then_wanted::<u32>(field, Wanted::Shares),
        Wanted::CancelArrival => then_wanted::<u32>(field, Wanted::End),
        Wanted::Market => then_wanted::<u32>(field, Wanted::Side),
        Wanted::End => Err(Fault::Surplus),
    }
}

// The same, where an empty field that ends its body is missing and not faulty.
pub fn next_wanted(wanted: Wanted, field: &[u8], last: bool) -> Result<Wanted, Fault>
    ensures { result ≡ read_field wanted field.now last }
{
    if last && field.is_empty() {
        return Err(if wanted == Wanted::End {
            Fault::Surplus
        } else {
            Fault::Missing
        });
    }
    after_field(wanted, field)
}
