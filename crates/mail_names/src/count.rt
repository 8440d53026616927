// Counts in 32 bits.
ghost use Rattle.std.specs.Prelude.{◌≡◌, IfOk};

use crate::NoMemory;

/// The count in 32 bits. One that needs more finds no memory.
pub fn short_count(count: usize) -> Result<u32, NoMemory>
    ensures { IfOk result (λ short. short ≡ count) }
{
    u32::try_from(count).map_err(|_| NoMemory)
}
