// A planner that sends nothing.
use mail_names::{Bytes, Items, Key, NoMemory};
use mail_plan::{OrgFault, Planner, Release, ReleaseInput};
use std::alloc::Global;
use std::marker::Model;

/// An organisation of any texts.
#[derive(Drop)]
pub struct AnyOrg {
    directory: Bytes,
    rules: Bytes,
}

impl Model for AnyOrg {
    ghost use Rattle.std.specs.Prelude.{ℕ, List};

    ghost Value = { List ℕ × List ℕ };

    ghost view = { λ o. (o.directory, o.rules) };
}

impl AnyOrg {
    /// An organisation of this directory.
    pub fn without_rules(alloc: Global, directory: &[u8]) -> Result<AnyOrg, NoMemory> {
        Ok(AnyOrg {
            directory: Bytes::of(alloc, directory)?,
            rules: Bytes::new(alloc),
        })
    }
}

/// A planner that takes any texts and sends nothing.
pub struct Silent;

impl Planner for Silent {
    ghost use Rattle.std.specs.Prelude.{◌≡◌, [], true, false, Ok, refl};

    type Org = AnyOrg;

    ghost means = { record {
      reads = λ directory rules. Ok (directory, rules);
      directory_of = λ org. org.0;
      rules_of = λ org. org.1;
      release_of = λ org input. record { texts = []; items = []; holds = []; ends = [] };
      inside = λ org key. false;
      takes = λ org sender mailbox target. false;
    } };

    fn read_org(alloc: Global, directory: &[u8], rules: &[u8]) -> Result<AnyOrg, OrgFault> {
        let (Ok(directory), Ok(rules)) = (Bytes::of(alloc, directory), Bytes::of(alloc, rules))
        else {
            return Err(OrgFault::NoMemory);
        };
        Ok(AnyOrg { directory, rules })
    }

    fn release(alloc: Global, org: &AnyOrg, input: &ReleaseInput) -> Result<Release, NoMemory> {
        Ok(Release {
            texts: Items::new(alloc),
            items: Items::new(alloc),
            holds: Items::new(alloc),
            ends: Items::new(alloc),
        })
    }

    fn texts(org: &AnyOrg) -> (&[u8], &[u8]) {
        (org.directory.as_slice(), org.rules.as_slice())
    }

    fn is_inside(org: &AnyOrg, key: &Key) -> bool {
        false
    }

    ghost starts = { λ fault is. cc };

    ghost own_texts = { λ org directory rules is. (cc, cc) };

    ghost lawful = { λ org input own. refl };

    ghost targets_once = { λ org input. refl };

    ghost gates_once = { λ org input. refl };

    ghost sent_once = { λ org earlier later goes_on target sent. refl };

    ghost met_once = { λ org earlier later goes_on gate met. refl };

    ghost reported = { λ org input is holds mailbox. refl };
}
