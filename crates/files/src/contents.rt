// The contents of a session file: the offset and the length of each body.
ghost use Rattle.std.specs.Prelude.{◌≡◌, ◌+◌, ◌*◌, ◌≤◌, length};
ghost use Rattle.files.specs.Files.{short_at, count_of, offset_of, length_of, body_in, wrong_size, wrong_entry};

// A number of 16 bits, low byte first; a byte past the end of the file counts as 0.
fn short_at(file: &[u8], at: usize) -> u16
    ensures { result ≡ short_at file.now at }
{
    match file.get(at..at.saturating_add(2)) {
        Some([low, high]) => u16::from_le_bytes([*low, *high]),
        _ => file.get(at).map_or(0, |low| u16::from(*low)),
    }
}

pub fn count(file: &[u8]) -> u16
    ensures { result ≡ count_of file.now }
{
    short_at(file, 0)
}

pub fn offset(file: &[u8], index: u16) -> u16
    ensures { result ≡ offset_of file.now index }
{
    short_at(file, 2 + 4 * usize::from(index))
}

fn body_length(file: &[u8], index: u16) -> u16
    ensures { result ≡ length_of file.now index }
{
    short_at(file, 4 + 4 * usize::from(index))
}

// The bytes of a body: those of its span that the file has.
pub fn body(file: &[u8], index: u16) -> &[u8]
    ensures value { result.now ≡ body_in file.now index }
    ensures within { length result.now ≤ 65535 }
{
    let rest = file.get(usize::from(offset(file, index))..).unwrap_or(&[]);
    rest.get(..usize::from(body_length(file, index)))
        .unwrap_or(rest)
}

// Whether the file is too large, or too small for its contents.
pub fn is_wrong_size(file: &[u8]) -> bool
    ensures { result ≡ wrong_size file.now }
{
    file.len() > 65535
        || file.len() < 2
        || count(file) > 512
        || file.len() < 2 + 4 * usize::from(count(file))
}

// The first entry whose offset is not where the forerunner ends, or the count where only the last
// body does not end with the file.
#[tactic(auto, using(crate::proofs::Entries::entry_right, crate::proofs::Entries::entry_wrong))]
pub fn wrong_entry(file: &[u8]) -> Option<u16>
    ensures { result ≡ wrong_entry file.now (count_of file.now) 0 (2 + 4 * count_of file.now) }
{
    let count = count(file);
    let mut next = 2 + 4 * usize::from(count);
    // A range, since the index is the answer.
    for index in 0..count {
        if usize::from(offset(file, index)) != next {
            return Some(index);
        }
        next += usize::from(body_length(file, index));
    }
    if next == file.len() {
        None
    } else {
        Some(count)
    }
}
