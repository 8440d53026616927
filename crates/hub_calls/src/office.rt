// The office of a hub.
ghost use Rattle.std.specs.Prelude.{◌≡◌, ℕ, true, IfErr};
ghost use Rattle.hub_calls.specs.Refusals.{can_refuse, HasCauses};
ghost use Rattle.hub_calls.specs.declared.office.OfficeCall.{OfficeCall};
ghost use Rattle.hub_calls.specs.declared.office.OfficeStep.{OfficeStep};

use crate::{ApprovalRow, EndRow, HubFault, QueueView, TurnEnd};
use mail_names::{ApprovalName, Bytes, ItemName, Items, Key};
use moderation::{Decision, Verdict};

/// The calls of an office. Contracts speak of it, to say which refusals a call gives; no value of it is made.
pub enum OfficeCall {
    Organise,
    Decide,
    Moderator,
    Turn,
    Queue,
    Approvals,
    Ended,
    List,
    Fetch,
}

/// A call with its arguments and its answer. Contracts speak of it; no value of it is made.
pub enum OfficeStep {
    Organise {
        directory: Option<Bytes>,
        rules: Option<Bytes>,
        answer: Result<u32, HubFault>,
    },
    Decide {
        approval: ApprovalName,
        by: Key,
        verdict: Verdict,
        clock: u64,
        answer: Result<Decision, HubFault>,
    },
    Moderator {
        approval: ApprovalName,
        place: u32,
        answer: Result<Option<Key>, HubFault>,
    },
    Turn {
        clock: u64,
        answer: Result<TurnEnd, HubFault>,
    },
    Queue {
        answer: Result<QueueView, HubFault>,
    },
    Approvals {
        answer: Result<Items<ApprovalRow>, HubFault>,
    },
    Ended {
        answer: Result<Items<EndRow>, HubFault>,
    },
    List {
        folder: Key,
        answer: Result<Items<ItemName>, HubFault>,
    },
    Fetch {
        folder: Key,
        name: ItemName,
        answer: Result<Bytes, HubFault>,
    },
}

/// What an administrator asks of a hub.
///
/// Each call refuses only with the faults that `can_refuse` has for it, and for the disk or the shelf only where the count
/// of its faults rose in that call.
pub trait Office {
    /// How often the disk failed.
    ghost disk_faults: { Self → ℕ };

    /// How often the shelf failed.
    ghost shelf_faults: { Self → ℕ };

    /// Which answer and which later office a call may give.
    ghost gives: { Self → OfficeStep → Self → Type 0 };

    /// Makes these texts the organisation's, the newest text standing for one that isn't given, and gives its number.
    fn organise(&mut self, directory: Option<Bytes>, rules: Option<Bytes>) -> Result<u32, HubFault>
        ensures gives { gives self.old (OfficeStep.Organise directory rules result) self.new }
        ensures causes { HasCauses (disk_faults self.old) (disk_faults self.new) (shelf_faults self.old) (shelf_faults self.new) result }
        ensures refuses { IfErr result (λ fault. can_refuse OfficeCall.Organise fault ≡ true) };

    /// Decides an approval, by the moderator with this key. `clock` is in seconds since 1970-01-01T00:00:00Z.
    fn decide(
        &mut self,
        approval: &ApprovalName,
        by: &Key,
        verdict: Verdict,
        clock: u64,
    ) -> Result<Decision, HubFault>
        ensures gives { gives self.old (OfficeStep.Decide approval.now by.now verdict clock result) self.new }
        ensures causes { HasCauses (disk_faults self.old) (disk_faults self.new) (shelf_faults self.old) (shelf_faults self.new) result }
        ensures refuses { IfErr result (λ fault. can_refuse OfficeCall.Decide fault ≡ true) };

    /// The key at that place among the moderators of an approval, in whatever state it is. None says that no live release
    /// that is categorised asks for it, or that the place is past the last.
    fn moderator(&mut self, approval: &ApprovalName, place: u32) -> Result<Option<Key>, HubFault>
        ensures gives { gives self.old (OfficeStep.Moderator approval.now place result) self.new }
        ensures causes { HasCauses (disk_faults self.old) (disk_faults self.new) (shelf_faults self.old) (shelf_faults self.new) result }
        ensures refuses { IfErr result (λ fault. can_refuse OfficeCall.Moderator fault ≡ true) };

    /// Runs a turn at this moment, in seconds since 1970-01-01T00:00:00Z: it puts what is due, and ends what has run out.
    fn turn(&mut self, clock: u64) -> Result<TurnEnd, HubFault>
        ensures gives { gives self.old (OfficeStep.Turn clock result) self.new }
        ensures causes { HasCauses (disk_faults self.old) (disk_faults self.new) (shelf_faults self.old) (shelf_faults self.new) result }
        ensures refuses { IfErr result (λ fault. can_refuse OfficeCall.Turn fault ≡ true) };

    /// What waits, and how much is live.
    fn queue(&mut self) -> Result<QueueView, HubFault>
        ensures gives { gives self.old (OfficeStep.Queue result) self.new }
        ensures causes { HasCauses (disk_faults self.old) (disk_faults self.new) (shelf_faults self.old) (shelf_faults self.new) result }
        ensures refuses { IfErr result (λ fault. can_refuse OfficeCall.Queue fault ≡ true) };

    /// The approvals that pend, by name.
    fn approvals(&mut self) -> Result<Items<ApprovalRow>, HubFault>
        ensures gives { gives self.old (OfficeStep.Approvals result) self.new }
        ensures causes { HasCauses (disk_faults self.old) (disk_faults self.new) (shelf_faults self.old) (shelf_faults self.new) result }
        ensures refuses { IfErr result (λ fault. can_refuse OfficeCall.Approvals fault ≡ true) };

    /// What ended without being delivered, in the order in which it did.
    fn ended(&mut self) -> Result<Items<EndRow>, HubFault>
        ensures gives { gives self.old (OfficeStep.Ended result) self.new }
        ensures causes { HasCauses (disk_faults self.old) (disk_faults self.new) (shelf_faults self.old) (shelf_faults self.new) result }
        ensures refuses { IfErr result (λ fault. can_refuse OfficeCall.Ended fault ≡ true) };

    /// The names of the items on the shelf in a folder, ascending.
    fn list(&mut self, folder: &Key) -> Result<Items<ItemName>, HubFault>
        ensures gives { gives self.old (OfficeStep.List folder.now result) self.new }
        ensures causes { HasCauses (disk_faults self.old) (disk_faults self.new) (shelf_faults self.old) (shelf_faults self.new) result }
        ensures refuses { IfErr result (λ fault. can_refuse OfficeCall.List fault ≡ true) };

    /// The octets of an item on the shelf.
    fn fetch(&mut self, folder: &Key, name: &ItemName) -> Result<Bytes, HubFault>
        ensures gives { gives self.old (OfficeStep.Fetch folder.now name.now result) self.new }
        ensures causes { HasCauses (disk_faults self.old) (disk_faults self.new) (shelf_faults self.old) (shelf_faults self.new) result }
        ensures refuses { IfErr result (λ fault. can_refuse OfficeCall.Fetch fault ≡ true) };
}
