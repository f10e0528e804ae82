// The fields of a line, one after another.
ghost use Rattle.std.specs.Prelude.{◌≡◌, ◌==◌, not, position};
ghost use Rattle.std.specs.List.{list_all};
ghost use Rattle.std.specs.Iterator.{YieldsFirstRef, item_count};
ghost use Rattle.commands.specs.Coming.{coming};
ghost use Rattle.commands.specs.Fields.{separates, plain, uncommented, fields};

// What is left of a line before its comment.
#[derive(Clone, Copy)]
pub(crate) struct Fields<'a> {
    rest: &'a [u8],
}

// Whether the byte is a blank or a tab.
fn is_separator(byte: u8) -> bool
    ensures { result ≡ separates byte }
{
    byte == b' ' || byte == b'\t'
}

// Whether the byte may stand before a comment.
fn is_plain_byte(byte: u8) -> bool
    ensures { result ≡ plain byte }
{
    is_separator(byte) || byte.is_ascii_graphic()
}

// Whether all bytes may stand before a comment.
pub(crate) fn is_plain(bytes: &[u8]) -> bool
    ensures { result ≡ list_all plain bytes.now }
{
    bytes.iter().all(|byte| is_plain_byte(*byte))
}

// Where the line's comment begins.
fn comment_start(line: &[u8]) -> Option<usize>
    ensures { result ≡ position (λ b. b == 35) line.now }
{
    line.iter().position(|byte| *byte == b'#')
}

// What stands before the line's comment.
pub(crate) fn before_comment(line: &[u8]) -> &[u8]
    ensures { result.now ≡ uncommented line.now }
{
    match comment_start(line) {
        Some(start) => &line[..start],
        None => line,
    }
}

// Where the first field begins.
fn field_start(bytes: &[u8]) -> Option<usize>
    ensures { result ≡ position (λ b. not (separates b)) bytes.now }
{
    bytes.iter().position(|byte| !is_separator(*byte))
}

// Where the first separator stands.
fn first_separator(bytes: &[u8]) -> Option<usize>
    ensures { result ≡ position separates bytes.now }
{
    bytes.iter().position(|byte| is_separator(*byte))
}

impl<'a> Fields<'a> {
    // The fields of these bytes, all yet to come.
    pub(crate) fn of(rest: &'a [u8]) -> Fields<'a>
        ensures { coming result ≡ fields rest.now }
    {
        Fields { rest }
    }
}

impl<'a> Iterator for Fields<'a> {
    type Item = &'a [u8];

    ghost next_gives = { YieldsFirstRef coming };

    ghost remaining = { item_count coming };

    // None once the last field has been handed out, and ever after.
    fn next(&mut self) -> Option<&'a [u8]> {
        let start = field_start(self.rest)?;
        let front = &self.rest[start..];
        let end = first_separator(front).unwrap_or(front.len());
        let (field, rest) = front.split_at(end);
        self.rest = rest;
        Some(field)
    }
}
