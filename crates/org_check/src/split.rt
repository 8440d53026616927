// The two parts of an organisation's text.
ghost use Rattle.std.specs.Prelude.{◌≡◌, ◌≤◌, length, drop, IfSome};
ghost use Rattle.org_check.specs.Parts.{mark_length, begins_line, is_mark, first_mark, directory_text, rules_text};

// The length of the line %% that stands first, or 0.
fn mark_length(rest: &[u8]) -> usize
    ensures value { result ≡ mark_length rest.now }
    ensures within { result ≤ length rest.now }
{
    if rest.starts_with(b"%%\n") {
        3
    } else if rest.starts_with(b"%%\r\n") {
        4
    } else {
        0
    }
}

fn begins_line(text: &[u8], at: usize) -> bool
    requires { at ≤ length text.now }
    ensures { result ≡ begins_line text.now at }
{
    if at == 0 {
        return true;
    }
    text[at - 1] == b'\n'
}

fn is_mark(text: &[u8], at: usize) -> bool
    requires { at ≤ length text.now }
    ensures { result ≡ is_mark text.now at }
{
    begins_line(text, at) && mark_length(&text[at..]) != 0
}

// The place of the first line %%.
fn first_mark(text: &[u8]) -> Option<usize>
    ensures value { result ≡ first_mark text.now }
    ensures within { IfSome result (λ at. at ≤ length text.now) }
{
    for at in 0..text.len() {
        if is_mark(text, at) {
            return Some(at);
        }
    }
    None
}

/// The directory's text, and the rules' text behind the first line `%%`, which may be empty.
pub fn parts(text: &[u8]) -> (&[u8], &[u8])
    ensures directory { result.0.now ≡ directory_text text.now }
    ensures rules { result.1.now ≡ rules_text text.now }
{
    match first_mark(text) {
        None => (text, &text[text.len()..]),
        Some(at) => {
            let rest = &text[at..];
            (&text[..at], &rest[mark_length(rest)..])
        }
    }
}
