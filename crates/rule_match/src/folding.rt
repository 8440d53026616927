// Texts without case.
ghost use Rattle.std.specs.Prelude.{◌≡◌, IfOk};
ghost use Rattle.rule_match.specs.Words.{folded};

use mail_names::{Bytes, NoMemory, lowered};
use std::alloc::Global;
use std::str::from_utf8;

/// The text in default case folding (The Unicode Standard, section 3.13), or with its ASCII letters lowered where it is no
/// UTF-8.
pub fn folded(alloc: Global, text: &[u8]) -> Result<Bytes, NoMemory>
    ensures { IfOk result (λ b. b ≡ folded text.now) }
{
    match from_utf8(text) {
        Ok(text) => {
            let folded = caseless::default_case_fold_str(alloc, text)?;
            Ok(Bytes::from_vec(folded.into_bytes()))
        }
        Err(_) => lowered(alloc, text),
    }
}
