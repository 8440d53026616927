// Laws of the bytes of entries.
ghost use Rattle.std.specs.Prelude.{◌≡◌, [], List, ℕ, ◌++◌};
ghost use Rattle.log_entry.specs.declared.entry.Entry.{Entry};
ghost use Rattle.log_entry.specs.Entries.{IsEntry};
ghost use Rattle.log_entry.specs.EntryText.{entry_text};

/// An entry's text determines the entry.
pub fn one_entry()
    ensures { (a b : Entry) → IsEntry a → IsEntry b → entry_text a ≡ entry_text b → a ≡ b }
{}

/// No entry's text is a proper prefix of another's.
pub fn no_entry_is_a_prefix()
    ensures { (a b : Entry) (rest : List ℕ) → IsEntry a → IsEntry b → entry_text a ++ rest ≡ entry_text b → rest ≡ [] }
{}
