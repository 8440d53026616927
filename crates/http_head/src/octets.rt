// Octets of a head.
ghost use Rattle.std.specs.Prelude.{◌≡◌};
ghost use Rattle.std.specs.List.{position_or_len, before_first, after_first, list_any, list_all};
ghost use Rattle.http_head.specs.Paths.{is_byte, path_part};
ghost use Rattle.http_head.specs.Fields.{same_name};
ghost use Rattle.http_head.specs.Heads.{is_line_end};

// Where an octet first stands, or the text's length where it doesn't.
fn place_of(text: &[u8], b: u8) -> usize
    ensures { result ≡ position_or_len (is_byte b) text.now }
{
    for (i, c) in text.iter().enumerate() {
        if *c == b {
            return i;
        }
    }
    text.len()
}

fn before_slash(path: &[u8]) -> &[u8]
    ensures { result.now ≡ before_first (is_byte 47) path.now }
{
    let count = place_of(path, b'/');
    &path[..count.min(path.len())]
}

fn behind_slash(path: &[u8]) -> &[u8]
    ensures { result.now ≡ after_first (is_byte 47) path.now }
{
    let count = place_of(path, b'/').saturating_add(1);
    &path[count.min(path.len())..]
}

/// The part of a path behind its second slash.
pub fn second_part(path: &[u8]) -> &[u8]
    ensures { result.now ≡ path_part 2 path.now }
{
    before_slash(behind_slash(behind_slash(path)))
}

/// The part of a path behind its third slash.
pub fn third_part(path: &[u8]) -> &[u8]
    ensures { result.now ≡ path_part 3 path.now }
{
    before_slash(behind_slash(behind_slash(behind_slash(path))))
}

/// The part of a path behind its fourth slash.
pub fn fourth_part(path: &[u8]) -> &[u8]
    ensures { result.now ≡ path_part 4 path.now }
{
    before_slash(behind_slash(behind_slash(behind_slash(behind_slash(path)))))
}

/// Whether these are one name of a field: ASCII case doesn't matter (RFC 9110 section 5.1).
pub fn same_name(text: &[u8], name: &[u8]) -> bool
    ensures { result ≡ same_name text.now name.now }
{
    text.eq_ignore_ascii_case(name)
}

/// Whether an LF is among the octets.
pub fn has_line_feed(text: &[u8]) -> bool
    ensures { result ≡ list_any (is_byte 10) text.now }
{
    text.iter().any(|b| *b == b'\n')
}

/// Whether all octets are CR or LF.
pub fn is_blank(text: &[u8]) -> bool
    ensures { result ≡ list_all is_line_end text.now }
{
    text.iter().all(|b| *b == b'\n' || *b == b'\r')
}
