// What makes releases.
use crate::{Release, ReleaseInput};
use mail_names::{Key, NoMemory};
use std::alloc::Global;

/// Why two texts are no organisation. The numbers are those of the faults of a directory and of a rule book; `rule` is 0
/// where the fault names none.
#[derive(Clone, Copy, Debug, PartialEq, Eq)]
pub enum OrgFault {
    Directory { number: u8, row: u32 },
    Rules { number: u8, rule: u32 },
    NoMemory,
}

/// The directory text of the organisation that stands before any other: the header record alone.
pub const FIRST_DIRECTORY: &[u8] = b"key,kind,members,owners,moderated,moderators,bypass,tell\r\n";

/// Reads organisations, and makes the releases of submissions by them.
pub trait Planner {
    ghost use Rattle.std.specs.Prelude.{◌≡◌, ℕ, Bool, true, false, List, [], Option, Result, Ok, Err, IfOk};
    ghost use Rattle.mail_names.specs.declared.gate.Gate.{Gate};
    ghost use Rattle.mail_plan.specs.Fits.{IsRelease};
    ghost use Rattle.mail_plan.specs.Means.{Means};
    ghost use Rattle.mail_plan.specs.Planning.{Input, IsInput, Gives, Continues, Reports, first_directory, is_release, are_distinct, are_distinct_gates, is_among, is_gate_among, targets, gates_of};
    ghost use Rattle.mail_plan.specs.declared.planner.OrgFault.{OrgFault};
    ghost use Rattle.mail_plan.specs.declared.release.Release.{Release};

    /// An organisation that was read.
    type Org: Drop;

    /// What it makes of organisations.
    ghost means: { Means Self.Org };

    /// The organisation of two texts, or their first fault.
    fn read_org(alloc: Global, directory: &[u8], rules: &[u8]) -> Result<Self::Org, OrgFault>
        ensures { Gives result (means.reads directory.now rules.now) };

    /// The release that the organisation prescribes for an input.
    fn release(alloc: Global, org: &Self::Org, input: &ReleaseInput) -> Result<Release, NoMemory>
        ensures { IfOk result (λ release. release ≡ means.release_of org.now input.now) };

    /// The texts that the organisation was read from: of its directory, and of its rules. It is what they read to. It takes
    /// no memory.
    fn texts(org: &Self::Org) -> (&[u8], &[u8])
        ensures directory { result.0.now ≡ means.directory_of org.now }
        ensures rules { result.1.now ≡ means.rules_of org.now }
        ensures own { means.reads (means.directory_of org.now) (means.rules_of org.now) ≡ Ok org.now };

    /// Whether the key's domain is accepted. It takes no memory.
    fn is_inside(org: &Self::Org, key: &Key) -> bool
        ensures { result ≡ means.inside org.now key.now };

    /// The texts of the first organisation, which has no objects and no rules, are no fault.
    ghost starts: { (fault : OrgFault) → means.reads first_directory [] ≡ Err fault → ⊥ };

    /// An organisation has the texts that it was read from.
    ghost own_texts: { (org : Self.Org) (directory rules : List ℕ) → means.reads directory rules ≡ Ok org →
        (means.directory_of org ≡ directory) × (means.rules_of org ≡ rules) };

    /// A release has the form of one.
    ghost lawful: { (org : Self.Org) (input : Input) → means.reads (means.directory_of org) (means.rules_of org) ≡ Ok org →
        is_release input.number input.release (means.release_of org input) ≡ true };

    /// No two versions of a release have one target.
    ghost targets_once: { (org : Self.Org) (input : Input) → are_distinct (targets (means.release_of org input).items) ≡ true };

    /// No two holds of a release have one gate.
    ghost gates_once: { (org : Self.Org) (input : Input) → are_distinct_gates (gates_of (means.release_of org input).holds) ≡ true };

    /// What a release sent to, no later one sends to.
    ghost sent_once: { (org : Self.Org) (earlier later : Input) → Continues earlier later → (target : List ℕ) →
        is_among target (targets (means.release_of org earlier).items) ≡ true → is_among target (targets (means.release_of org later).items) ≡ false };

    /// A gate that a release met, no later one meets.
    ghost met_once: { (org : Self.Org) (earlier later : Input) → Continues earlier later → (gate : Gate) →
        is_gate_among gate (gates_of (means.release_of org earlier).holds) ≡ true → is_gate_among gate (gates_of (means.release_of org later).holds) ≡ false };

    /// Each mailbox that takes a version of a release gets one report of it, which lists exactly the versions that it
    /// takes, in their order. The release is one that an entry can hold.
    ghost reported: { (org : Self.Org) (input : Input) → IsInput input → IsRelease (means.release_of org input) →
        Reports (means.takes org input.submission.reverse) (means.release_of org input) };
}
