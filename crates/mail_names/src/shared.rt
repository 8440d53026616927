// Octets that several owners hold.
ghost use Rattle.std.specs.Prelude.{◌≡◌, IfOk};

use crate::{Bytes, NoMemory};
use std::alloc::Global;
use std::marker::Model;
use std::sync::Arc;

/// Octets that several owners share. Contracts see them as a list of numbers.
#[derive(Drop)]
pub struct SharedBytes {
    shared: Arc<Bytes>,
}

impl Model for SharedBytes {
    ghost use Rattle.std.specs.Prelude.{List, ℕ};
    ghost use Rattle.std.specs.Arc.{arc_value};

    ghost Value = { List ℕ };

    ghost view = { λ s. arc_value s.shared };
}

impl SharedBytes {
    /// Takes the bytes over.
    pub fn new(alloc: Global, bytes: Bytes) -> Result<SharedBytes, NoMemory>
        ensures { IfOk result (λ s. s ≡ bytes) }
    {
        let shared = Arc::new(alloc, bytes)?;
        Ok(SharedBytes { shared })
    }

    /// The same bytes, for one more owner. It copies none of them.
    pub fn share(&self) -> Result<SharedBytes, NoMemory>
        ensures { IfOk result (λ s. s ≡ self.now) }
    {
        let shared = self.shared.clone()?;
        Ok(SharedBytes { shared })
    }

    /// The bytes. It takes no memory.
    pub fn bytes(&self) -> &Bytes
        ensures { result.now ≡ self.now }
    {
        &*self.shared
    }

    /// The bytes as a slice. It takes no memory.
    pub fn as_slice(&self) -> &[u8]
        ensures { result.now ≡ self.now }
    {
        self.shared.as_slice()
    }
}
