// Where a mark parts bytes: the fields of a body, and the lines of a text.
ghost use Rattle.std.specs.Prelude.{◌≡◌, ◌+◌, ◌-◌, ◌≤◌, ◌==◌, length};
ghost use Rattle.std.specs.Iterator.{at_most, item_count, YieldsFirstRef};
ghost use Rattle.std.specs.List.{position};
ghost use Rattle.files.specs.Cursors.{left_in, lines_left, GivesField};
ghost use Rattle.files.specs.Fields.{word, fields};
ghost use Rattle.files.specs.Lines.{only_at};
ghost use Rattle.files.specs.Packing.{lines_in};

// Where the first mark is, which parts words.
fn mark_at(bytes: &[u8], mark: u8) -> Option<usize>
    ensures { result ≡ position (λ b. b == mark) bytes.now }
{
    bytes.iter().position(|b| *b == mark)
}

// How long the first word is: up to the mark, or to the end.
fn word_len(bytes: &[u8], mark: u8) -> usize
    ensures value { result ≡ length (word mark bytes.now) }
    ensures within { result ≤ length bytes.now }
{
    mark_at(bytes, mark).unwrap_or(bytes.len())
}

// The fields of a body that are left to read, each with its place. Only a space parts them, so an
// empty body has one field, an empty one.
#[derive(Drop)]
pub struct Fields<'a> {
    body: &'a [u8],
    at: usize,
}

impl<'a> Fields<'a> {
    pub fn of(body: &'a [u8]) -> Self
        ensures body { result.body.now ≡ body.now }
        ensures at { result.at ≡ 0 }
        ensures fields { left_in result ≡ fields body.now }
    {
        Fields { body, at: 0 }
    }

    // A value, if no field is left.
    pub fn at_end<T: Drop>(self, value: T) -> Option<T>
        ensures { result ≡ only_at 0 (left_in self.entry) value }
    {
        (self.at > self.body.len()).then_some(value)
    }
}

impl<'a> Iterator for Fields<'a> {
    type Item = (usize, &'a [u8]);

    ghost next_gives = { λ s r t. (t.body.now ≡ s.body.now) × GivesField s.body.now s.at r t.at };

    ghost remaining = { λ s. at_most (length s.body.now + 1 - s.at) };

    fn next(&mut self) -> Option<(usize, &'a [u8])> {
        let at = self.at;
        let rest = self.body.get(at..)?;
        let len = word_len(rest, b' ');
        self.at = at + len + 1;
        Some((at, &rest[..len]))
    }
}

// The lines of a text, without their line feeds. A line begins only where there is a byte, so a
// final line feed ends the last line and begins none.
#[derive(Drop)]
pub struct Lines<'a> {
    // What is left of the text.
    text: &'a [u8],
}

impl<'a> Lines<'a> {
    pub fn of(text: &'a [u8]) -> Self
        ensures { lines_left result ≡ lines_in text.now }
    {
        Lines { text }
    }
}

impl<'a> Iterator for Lines<'a> {
    type Item = &'a [u8];

    ghost next_gives = { YieldsFirstRef lines_left };

    ghost remaining = { item_count lines_left };

    fn next(&mut self) -> Option<&'a [u8]> {
        let text = self.text;
        if text.is_empty() {
            return None;
        }
        let len = word_len(text, b'\n');
        self.text = text.get(len + 1..).unwrap_or(&[]);
        Some(&text[..len])
    }
}
