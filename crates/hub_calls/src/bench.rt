// The bench of a hub.
ghost use Rattle.std.specs.Prelude.{◌≡◌, ◌<◌, ℕ, true, IfErr};
ghost use Rattle.hub_calls.specs.Benches.{bench_can_refuse};
ghost use Rattle.hub_calls.specs.Refusals.{HasCauses};
ghost use Rattle.hub_calls.specs.declared.bench.BenchCall.{BenchCall};
ghost use Rattle.hub_calls.specs.declared.bench.BenchStep.{BenchStep};

use crate::{CommitEnd, HubFault};
use mail_plan::{Outcome, Planner, Task};

/// What a bench has for a worker.
#[derive(Drop)]
pub enum Taking<T: Planner> {
    /// A release that is to be made.
    Task { task: Task<T> },
    /// Each release of the worker's share is categorised.
    Nothing,
    /// The work has ended. Only a desk answers it.
    Stopped,
}

/// The calls of a bench. Contracts speak of it, to say which refusals a call gives; no value of it is made.
pub enum BenchCall {
    Take,
    Commit,
}

/// A call with its arguments and its answer. Contracts speak of it; no value of it is made.
pub enum BenchStep<T: Planner> {
    Take {
        residue: u32,
        workers: u32,
        answer: Result<Taking<T>, HubFault>,
    },
    Commit {
        outcome: Outcome<T>,
        answer: Result<CommitEnd, HubFault>,
    },
}

/// Where workers get the releases that are to be made, and bring those that were.
///
/// Each call refuses only with the faults that `bench_can_refuse` has for it, and for the disk or the shelf only where the
/// count of its faults rose in that call.
pub trait TaskBench<T: Planner> {
    /// How often the disk failed.
    ghost disk_faults: { Self → ℕ };

    /// How often the shelf failed.
    ghost shelf_faults: { Self → ℕ };

    /// Which answer and which later bench a call may give.
    ghost gives: { Self → BenchStep T T.Org → Self → Type 0 };

    /// The first release, by submission and release, that isn't categorised, among the submissions whose number leaves this
    /// residue by the number of workers.
    fn take(&mut self, residue: u32, workers: u32) -> Result<Taking<T>, HubFault>
        requires { residue < workers }
        ensures gives { gives self.old (BenchStep.Take residue workers result) self.new }
        ensures causes { HasCauses (disk_faults self.old) (disk_faults self.new) (shelf_faults self.old) (shelf_faults self.new) result }
        ensures refuses { IfErr result (λ fault. bench_can_refuse BenchCall.Take fault ≡ true) };

    /// Makes an outcome's release the one that its submission has, where it was made from what the hub has.
    fn commit(&mut self, outcome: Outcome<T>) -> Result<CommitEnd, HubFault>
        ensures gives { gives self.old (BenchStep.Commit outcome result) self.new }
        ensures causes { HasCauses (disk_faults self.old) (disk_faults self.new) (shelf_faults self.old) (shelf_faults self.new) result }
        ensures refuses { IfErr result (λ fault. bench_can_refuse BenchCall.Commit fault ≡ true) };
}
