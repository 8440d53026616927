// The planner of the hub.
use categorizer::{HubOrg, release};
use mail_names::{Key, NoMemory};
use mail_plan::{OrgFault, Planner, Release, ReleaseInput};
use std::alloc::Global;

/// The planner of the hub, for organisations with a directory in CSV and rules in TOML.
pub struct HubPlanner;

impl Planner for HubPlanner {
    ghost use Rattle.categorizer.specs.Meaning.{hub_means};
    ghost use Rattle.categorizer.proofs.Offered as offered;

    type Org = HubOrg;

    ghost means = { hub_means };

    fn read_org(alloc: Global, directory: &[u8], rules: &[u8]) -> Result<HubOrg, OrgFault> {
        HubOrg::read(alloc, directory, rules)
    }

    fn release(alloc: Global, org: &HubOrg, input: &ReleaseInput) -> Result<Release, NoMemory> {
        release(alloc, org, input)
    }

    fn texts(org: &HubOrg) -> (&[u8], &[u8]) {
        (org.directory_text(), org.rules_text())
    }

    fn is_inside(org: &HubOrg, key: &Key) -> bool {
        org.is_inside(key)
    }

    ghost starts = { offered.starts };

    ghost own_texts = { offered.own_texts };

    ghost lawful = { offered.lawful };

    ghost targets_once = { offered.targets_once };

    ghost gates_once = { offered.gates_once };

    ghost sent_once = { offered.sent_once };

    ghost met_once = { offered.met_once };

    ghost reported = { offered.reported };
}
