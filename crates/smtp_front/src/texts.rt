// Octets of a command line.
ghost use Rattle.std.specs.Prelude.{◌≡◌, ◌==◌, ◌||◌, take, drop};
ghost use Rattle.std.specs.List.{position_or_len, before_first, after_first};
ghost use Rattle.smtp_front.specs.Commands.{is_blank, trim, is_byte, is_same, unspaced, is_apart};

fn is_blank(b: u8) -> bool
    ensures { result ≡ is_blank b }
{
    b == b' ' || b == b'\t'
}

/// The line without the spaces and tabs at its end.
pub fn trimmed(line: &[u8]) -> &[u8]
    ensures { result.now ≡ trim line.now }
{
    let mut end = line.len();
    while end > 0 && is_blank(line[end - 1]) {
        end -= 1;
    }
    &line[..end]
}

/// The first octets, at most so many.
pub fn front(text: &[u8], count: usize) -> &[u8]
    ensures { result.now ≡ take count text.now }
{
    &text[..count.min(text.len())]
}

/// What stands behind the first octets.
pub fn beyond(text: &[u8], count: usize) -> &[u8]
    ensures { result.now ≡ drop count text.now }
{
    &text[count.min(text.len())..]
}

/// Where an octet first stands, or the text's length where it doesn't.
fn place_of(text: &[u8], b: u8) -> usize
    ensures { result ≡ position_or_len (is_byte b) text.now }
{
    for (i, c) in text.iter().enumerate() {
        if *c == b {
            return i;
        }
    }
    text.len()
}

/// What stands before the first such octet.
pub fn before(text: &[u8], b: u8) -> &[u8]
    ensures { result.now ≡ before_first (is_byte b) text.now }
{
    front(text, place_of(text, b))
}

/// What stands behind the first such octet.
pub fn behind(text: &[u8], b: u8) -> &[u8]
    ensures { result.now ≡ after_first (is_byte b) text.now }
{
    beyond(text, place_of(text, b).saturating_add(1))
}

/// Whether these are the same without ASCII case.
pub fn is_same(text: &[u8], name: &[u8]) -> bool
    ensures { result ≡ is_same text.now name.now }
{
    text.eq_ignore_ascii_case(name)
}

/// The text without the spaces in front.
pub fn unspaced(text: &[u8]) -> &[u8]
    ensures { result.now ≡ unspaced text.now }
{
    let mut rest = text;
    while let [b' ', behind @ ..] = rest {
        rest = behind;
    }
    rest
}

/// Whether this is nothing, or begins with a space.
pub fn is_apart(text: &[u8]) -> bool
    ensures { result ≡ is_apart text.now }
{
    match text {
        [] => true,
        [b, ..] => *b == b' ',
    }
}
