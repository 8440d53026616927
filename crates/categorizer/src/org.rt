// Organisations.
ghost use Rattle.std.specs.Prelude.{◌≡◌, Ok, Err};
ghost use Rattle.mail_plan.specs.Planning.{Gives};
ghost use Rattle.mail_plan.specs.declared.planner.OrgFault.TheVariants as faults;
ghost use Rattle.org_directory.specs.Register.{is_inside};
ghost use Rattle.org_directory.specs.Reading.{register_of};
ghost use Rattle.rule_terms.specs.Reading.{book_of};
ghost use Rattle.categorizer.specs.Organisation.{Organisation, directory_fault, rules_fault, with_book, organisation_of};

use mail_names::{Bytes, Key};
use mail_plan::OrgFault;
use org_directory::{Directory, DirectoryFault};
use rule_terms::{RuleBook, RuleFault, read_rules};
use std::alloc::Global;
use std::marker::Model;

/// An organisation: the texts of its directory and of its rules, and what they read to.
#[derive(Drop)]
pub struct HubOrg {
    directory_text: Bytes,
    rules_text: Bytes,
    directory: Directory,
    book: RuleBook,
}

impl Model for HubOrg {
    ghost use Rattle.std.specs.Prelude.{◌≡◌, Ok};
    ghost use Rattle.categorizer.specs.Organisation.{Organisation, organisation_of};

    ghost Value = { Organisation };

    ghost view = { λ o. record { directory_text = o.directory_text; rules_text = o.rules_text; register = o.directory; book = o.book } };

    ghost invariant = { λ o. organisation_of o.directory_text o.rules_text
        ≡ Ok (record { directory_text = o.directory_text; rules_text = o.rules_text; register = o.directory; book = o.book }) };
}

// The fault of a directory, by its number. A row whose number needs more than 32 bits finds no memory.
fn at_row(number: u8, row: usize) -> OrgFault
    ensures { Gives {Org = Organisation} (Err result) (Err (faults.Directory number row)) }
{
    match u32::try_from(row) {
        Ok(row) => OrgFault::Directory { number, row },
        Err(_) => OrgFault::NoMemory,
    }
}

fn directory_fault(fault: DirectoryFault) -> OrgFault
    ensures { Gives {Org = Organisation} (Err result) (Err (directory_fault fault)) }
{
    match fault {
        DirectoryFault::BadRow { row } => at_row(1, row),
        DirectoryFault::DoubleKey { row } => at_row(2, row),
        DirectoryFault::UnknownMember { row } => at_row(3, row),
        DirectoryFault::NoModerators { row } => at_row(4, row),
        DirectoryFault::TooMany { row } => at_row(5, row),
        DirectoryFault::NoMemory => OrgFault::NoMemory,
    }
}

fn rules_fault(fault: RuleFault) -> OrgFault
    ensures { result ≡ rules_fault fault }
{
    match fault {
        RuleFault::NotToml => OrgFault::Rules { number: 1, rule: 0 },
        RuleFault::BadTerm { rule } => OrgFault::Rules { number: 2, rule },
        RuleFault::BadAction { rule } => OrgFault::Rules { number: 3, rule },
        RuleFault::UnknownKey { rule } => OrgFault::Rules { number: 4, rule },
        RuleFault::BadCode { rule } => OrgFault::Rules { number: 5, rule },
        RuleFault::BadDate { rule } => OrgFault::Rules { number: 6, rule },
        RuleFault::TooMany => OrgFault::Rules { number: 7, rule: 0 },
        RuleFault::NoMemory => OrgFault::NoMemory,
    }
}

// The organisation of a directory that was read, with its rules.
fn with_rules(
    alloc: Global,
    directory_text: Bytes,
    rules: &[u8],
    directory: Directory,
) -> Result<HubOrg, OrgFault>
    requires { register_of directory_text ≡ Ok directory }
    ensures { Gives result (with_book directory_text rules.now directory (book_of rules.now directory)) }
{
    let Ok(rules_text) = Bytes::of(alloc, rules) else {
        return Err(OrgFault::NoMemory);
    };
    match read_rules(alloc, rules, &directory) {
        Ok(book) => Ok(HubOrg {
            directory_text,
            rules_text,
            directory,
            book,
        }),
        Err(fault) => Err(rules_fault(fault)),
    }
}

impl HubOrg {
    /// The organisation of the texts of a directory and of its rules, or its first fault: those of the directory come
    /// before those of the rules, each by its number with its row or its rule.
    pub fn read(alloc: Global, directory: &[u8], rules: &[u8]) -> Result<HubOrg, OrgFault>
        ensures { Gives result (organisation_of directory.now rules.now) }
    {
        let Ok(text) = Bytes::of(alloc, directory) else {
            return Err(OrgFault::NoMemory);
        };
        match Directory::read_csv(alloc, directory) {
            Ok(found) => with_rules(alloc, text, rules, found),
            Err(fault) => Err(directory_fault(fault)),
        }
    }

    /// The text of the directory. With that of the rules it reads to the organisation. It takes no memory.
    pub fn directory_text(&self) -> &[u8]
        ensures text { result.now ≡ self.now.directory_text }
        ensures own { organisation_of self.now.directory_text self.now.rules_text ≡ Ok self.now }
    {
        self.directory_text.as_slice()
    }

    /// The text of the rules. It takes no memory.
    pub fn rules_text(&self) -> &[u8]
        ensures { result.now ≡ self.now.rules_text }
    {
        self.rules_text.as_slice()
    }

    /// The directory.
    pub fn directory(&self) -> &Directory
        ensures { result.now ≡ self.now.register }
    {
        &self.directory
    }

    /// The rules.
    pub fn book(&self) -> &RuleBook
        ensures { result.now ≡ self.now.book }
    {
        &self.book
    }

    /// Whether the key's domain is accepted. It takes no memory.
    pub fn is_inside(&self, key: &Key) -> bool
        ensures { result ≡ is_inside self.now.register key.now }
    {
        self.directory.is_inside(key)
    }
}
