// Reading a session file, body by body, and what is wrong with one that is refused.
ghost use Rattle.std.specs.Prelude.{◌≡◌, List, Ok};
ghost use Rattle.shelf.specs.Standing.{nth};
ghost use Rattle.files.specs.Faults.{RefusedFirst};
ghost use Rattle.files.specs.Files.{checked, line_at, count_of, refused, wrong_body, read_file, counted};
ghost use Rattle.files.specs.Lines.{Line, line_in};
ghost use Rattle.files.specs.Written.{file_bytes, Fitting, Answered, ReadsBack, OnlyWritten, ReadsExactly, OneReading};

use crate::bodies::read_body;
use crate::contents::{body, count, is_wrong_size, offset, wrong_entry};
use crate::cursors::Fields;
use crate::fields::next_wanted;
use crate::types::{Body, Wanted};
use market::types::Refusal;

// Reads every body, up to the first malformed field. By index, and left by one label, since the refusal
// names the body's index and the field's place.
fn check_bodies(file: &[u8], count: u16) -> Result<usize, Refusal>
    ensures { result ≡ refused count (wrong_body file.now count 0) }
{
    let (index, at) = 'bodies: {
        for index in 0..count {
            let body = body(file, index);
            let mut wanted = Wanted::First;
            for (at, field) in Fields::of(body) {
                match next_wanted(wanted, field, at + field.len() == body.len()) {
                    Ok(next) => wanted = next,
                    Err(_) => break 'bodies (index, at),
                }
            }
            if wanted != Wanted::End {
                break 'bodies (index, body.len());
            }
        }
        return Ok(usize::from(count));
    };
    Err(Refusal::Body {
        index: u32::from(index),
        place: u32::from(offset(file, index)) + at as u32,
    })
}

// The count of the bodies of a session file, or why the file is refused.
pub fn check_file(file: &[u8]) -> Result<usize, Refusal>
    ensures value { result ≡ checked file.now }
    ensures written { Answered file.now result }
    ensures read { result ≡ counted (read_file file.now) }
{
    if is_wrong_size(file) {
        return Err(Refusal::FileSize);
    }
    if let Some(index) = wrong_entry(file) {
        let index = u32::from(index);
        return Err(Refusal::Contents {
            index,
            place: 2 + 4 * index,
        });
    }
    check_bodies(file, count(file))
}

// The body of an index, if there is one and it can be read.
pub fn body_at(file: &[u8], index: usize) -> Option<Body<'_>>
    ensures value { line_in result ≡ line_at file.now index }
    ensures written { (lines : List Line) → Fitting lines → file.now ≡ file_bytes lines → line_in result ≡ nth index lines }
    ensures read { (lines : List Line) → read_file file.now ≡ Ok lines → line_in result ≡ nth index lines }
{
    if index >= usize::from(count(file)) {
        return None;
    }
    read_body(body(file, index as u16))
}

// What reading has to do with writing: lines that fit, written out, read back as themselves, no
// other file is accepted, no file says two lists of lines, and a body is refused at the first field
// with which it begins as no lawful line does.
pub fn reading_laws()
    ensures back { ReadsBack }
    ensures only { OnlyWritten }
    ensures exact { ReadsExactly }
    ensures one { OneReading }
    ensures first { RefusedFirst }
{}
