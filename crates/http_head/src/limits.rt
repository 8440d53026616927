// The limits of a head.
ghost use Rattle.std.specs.Prelude.{◌≡◌};
ghost use Rattle.http_head.specs.Heads.{behind_line_ends, line_feeds, is_over_limits};

/// The most fields of a head. With one more it is answered 400.
pub const MOST_FIELDS: usize = 64;

/// The most octets of a head, with the empty lines before it and the one that ends it. With one more it is answered 400.
pub const MOST_HEAD_OCTETS: usize = 16_384;

fn behind_line_ends(text: &[u8]) -> &[u8]
    ensures { result.now ≡ behind_line_ends text.now }
{
    let mut rest = text;
    while let [b'\n' | b'\r', behind @ ..] = rest {
        rest = behind;
    }
    rest
}

fn line_feeds(text: &[u8]) -> usize
    ensures { result ≡ line_feeds text.now }
{
    text.iter().filter(|b| **b == b'\n').count()
}

/// Whether a request line and 65 lines behind it have come, or more than 16,384 octets.
pub fn is_over_limits(text: &[u8]) -> bool
    ensures { result ≡ is_over_limits text.now }
{
    line_feeds(behind_line_ends(text)) > MOST_FIELDS + 1 || text.len() > MOST_HEAD_OCTETS
}
