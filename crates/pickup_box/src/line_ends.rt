// The line ends of a file.
ghost use Rattle.std.specs.Prelude.{◌≡◌, IfOk};
ghost use Rattle.pickup_box.specs.LineEnds.{ended_line, with_crlf};
ghost use Rattle.std.specs.List.{flat_map};

use mail_names::{Bytes, NoMemory};
use std::alloc::Global;

// With CRLF for each LF.
fn lines_ended(alloc: Global, file: &[u8]) -> Result<Bytes, NoMemory>
    ensures { IfOk result (λ text. text ≡ flat_map ended_line file.now) }
{
    let mut text = Bytes::new(alloc);
    for b in file {
        if *b == b'\n' {
            text.add(b"\r\n")?;
        } else {
            text.add(&[*b])?;
        }
    }
    Ok(text)
}

/// The text of a file: where it has no CR, each LF stands for CRLF (RFC 5322 section 2.3 asks for CRLF).
pub fn with_crlf(alloc: Global, file: &[u8]) -> Result<Bytes, NoMemory>
    ensures { IfOk result (λ text. text ≡ with_crlf file.now) }
{
    if file.contains(&b'\r') {
        return Bytes::of(alloc, file);
    }
    lines_ended(alloc, file)
}
