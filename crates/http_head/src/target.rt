// Whether a text ends inside a request's target.
ghost use Rattle.std.specs.Prelude.{◌≡◌};
ghost use Rattle.std.specs.List.{list_all};
ghost use Rattle.httparse.specs.Grammar.{is_token_byte, is_uri_byte};
ghost use Rattle.http_head.specs.Targets.{behind_empty_lines, in_method, ends_in_target};

fn behind_empty_lines(text: &[u8]) -> &[u8]
    ensures { result.now ≡ behind_empty_lines text.now }
{
    let mut rest = text;
    while let [b'\n', behind @ ..] | [b'\r', b'\n', behind @ ..] = rest {
        rest = behind;
    }
    rest
}

// Whether this octet may stand in a token (RFC 9110 section 5.6.2).
#[tactic(auto, unfolding(httparse::specs::Grammar::is_token_byte))]
fn is_token_byte(b: u8) -> bool
    ensures { result ≡ is_token_byte b }
{
    b.is_ascii_alphanumeric()
        || matches!(
            b,
            b'!' | b'#'
                | b'$'
                | b'%'
                | b'&'
                | b'\''
                | b'*'
                | b'+'
                | b'-'
                | b'.'
                | b'^'
                | b'_'
                | b'`'
                | b'|'
                | b'~'
        )
}

fn is_uri_byte(b: u8) -> bool
    ensures { result ≡ is_uri_byte b }
{
    b > 32 && b != 127
}

fn all_uri(text: &[u8]) -> bool
    ensures { result ≡ list_all is_uri_byte text.now }
{
    text.iter().all(|b| is_uri_byte(*b))
}

// Whether this is the rest of a method, a space, and octets of a target.
fn in_method(text: &[u8]) -> bool
    ensures { result ≡ in_method text.now }
{
    let mut rest = text;
    while let [b, behind @ ..] = rest {
        if *b == b' ' {
            return all_uri(behind);
        }
        if !is_token_byte(*b) {
            return false;
        }
        rest = behind;
    }
    false
}

/// Whether the text ends inside a request's target: empty lines, a method, a space, and octets of a target alone.
pub fn ends_in_target(text: &[u8]) -> bool
    ensures { result ≡ ends_in_target text.now }
{
    match behind_empty_lines(text) {
        [] => false,
        [b, rest @ ..] => is_token_byte(*b) && in_method(rest),
    }
}
