// Reading at a place of some bytes.
ghost use Rattle.std.specs.Prelude.{◌≡◌, ℕ, ◌+◌, ◌<◌, ◌^◌, [], ◌∷◌, List, length, IfOk, IfSome, IfNone, IsErrOf};
ghost use Rattle.log_entry.specs.EntryText.{le32, le64, form_bytes};
ghost use Rattle.mail_submission.specs.Fits.{IsU32, IsU64, IsBytes};
ghost use Rattle.log_entry.specs.Reading.{Stands, Reads, Expects};

use mail_names::NoMemory;

/// Why nothing was read.
#[derive(Clone, Copy, Debug, PartialEq, Eq)]
pub enum Miss {
    /// No such form stands there.
    NoForm,
    NoMemory,
}

impl From<NoMemory> for Miss {
    ghost use Rattle.std.specs.Prelude.{◌≡◌};
    ghost use Rattle.log_entry.specs.declared.places.Miss.TheVariants as misses;

    ghost from_gives = { λ _ e. e ≡ misses.NoMemory };

    fn from(_: NoMemory) -> Self {
        Miss::NoMemory
    }
}

// So many bytes from a place on, if there are so many.
fn piece(bytes: &[u8], at: usize, size: usize) -> Option<&[u8]>
    ensures some { IfSome result (λ found. (length found.now ≡ size) × Stands found.now bytes.now at (at + size)) }
    ensures none { IfNone result ((text : List ℕ) (end : ℕ) → length text ≡ size → Stands text bytes.now at end → ⊥) }
{
    if bytes.len() < at || bytes.len() - at < size {
        return None;
    }
    Some(&bytes[at..at + size])
}

// These very bytes, and the place behind them.
pub fn expect_at(bytes: &[u8], at: usize, text: &[u8]) -> Result<usize, Miss>
    ensures { Expects text.now bytes.now at result }
{
    match piece(bytes, at, text.len()) {
        Some(found) => {
            if found == text {
                Ok(at + text.len())
            } else {
                Err(Miss::NoForm)
            }
        }
        None => Err(Miss::NoForm),
    }
}

pub fn byte_at(bytes: &[u8], at: usize) -> Result<(u8, usize), Miss>
    ensures { Reads (λ b. b < 256) (λ b. b ∷ []) bytes.now at result }
{
    match piece(bytes, at, 1) {
        Some(found) => Ok((found[0], at + 1)),
        None => Err(Miss::NoForm),
    }
}

// The number that four bytes are, the least first.
fn number_of_4(bytes: &[u8]) -> u32
    requires { length bytes.now ≡ 4 }
    ensures { le32 result ≡ bytes.now }
{
    let mut four = [0; 4];
    four.copy_from_slice(bytes);
    u32::from_le_bytes(four)
}

// The number that eight bytes are, the least first.
fn number_of_8(bytes: &[u8]) -> u64
    requires { length bytes.now ≡ 8 }
    ensures { le64 result ≡ bytes.now }
{
    let mut eight = [0; 8];
    eight.copy_from_slice(bytes);
    u64::from_le_bytes(eight)
}

pub fn u32_at(bytes: &[u8], at: usize) -> Result<(u32, usize), Miss>
    ensures { Reads IsU32 le32 bytes.now at result }
{
    match piece(bytes, at, 4) {
        Some(found) => Ok((number_of_4(found), at + 4)),
        None => Err(Miss::NoForm),
    }
}

pub fn u64_at(bytes: &[u8], at: usize) -> Result<(u64, usize), Miss>
    ensures { Reads IsU64 le64 bytes.now at result }
{
    match piece(bytes, at, 8) {
        Some(found) => Ok((number_of_8(found), at + 8)),
        None => Err(Miss::NoForm),
    }
}

// The bytes behind their count.
pub fn slice_at(bytes: &[u8], at: usize) -> Result<(&[u8], usize), Miss>
    ensures some { IfOk result (λ found. IsBytes found.0.now × Stands (form_bytes found.0.now) bytes.now at found.1) }
    ensures none { IsErrOf result Miss.NoForm → (text : List ℕ) (end : ℕ) → IsBytes text → Stands (form_bytes text) bytes.now at end → ⊥ }
{
    let (size, start) = u64_at(bytes, at)?;
    match piece(bytes, start, size as usize) {
        Some(found) => Ok((found, start + size as usize)),
        None => Err(Miss::NoForm),
    }
}
