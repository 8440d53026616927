// Names in order, each once, found by an index.
ghost use Rattle.std.specs.Prelude.{◌≡◌, ◌<◌, [], ◌∷◌, ◌++◌, false, length, position, slice_get, Some, IfSome, OnOk};
ghost use Rattle.std.specs.Str.{bytes_eq};
ghost use Rattle.org_directory.specs.Register.{among};

use indexmap::IndexSet;
use mail_names::NoMemory;
use std::alloc::Global;
use std::marker::Model;

/// Byte strings in order, none twice. Contracts see them as a list.
#[derive(Drop)]
pub struct Names {
    index: IndexSet<Vec<u8>>,
}

impl Model for Names {
    ghost use Rattle.std.specs.Prelude.{List, ℕ, map};

    ghost Value = { List (List ℕ) };

    ghost view = { λ n. map (λ v. v.items) n.index.keys };
}

impl Names {
    /// No names. It takes no memory.
    pub fn new(alloc: Global) -> Names
        ensures { result ≡ [] }
    {
        Names {
            index: IndexSet::new(alloc),
        }
    }

    /// How many names there are.
    pub fn len(&self) -> usize
        ensures { result ≡ length self.now }
    {
        self.index.len()
    }

    /// The first place of the name. It takes no memory.
    pub fn place(&self, name: &[u8]) -> Option<usize>
        ensures place { result ≡ position (bytes_eq name.now) self.now }
        ensures within { IfSome result (λ p. p < length self.now) }
    {
        self.index.get_index_of(name)
    }

    /// The name at a place.
    pub fn name(&self, place: usize) -> &[u8]
        requires { place < length self.now }
        ensures { slice_get self.now place ≡ Some result.now }
    {
        self.index.as_slice()[place].as_slice()
    }

    /// Whether the name is there. It takes no memory.
    pub fn has(&self, name: &[u8]) -> bool
        ensures { result ≡ among name.now self.now }
    {
        self.index.contains(name)
    }

    /// Adds a name that isn't there at the end.
    pub fn push(&mut self, alloc: Global, name: &[u8]) -> Result<(), NoMemory>
        requires new { among name.now self.old ≡ false }
        ensures { OnOk result (self.new ≡ self.old ++ name.now ∷ []) }
    {
        let name = Vec::from_slice(alloc, name)?;
        self.index.insert(name)?;
        Ok(())
    }
}
