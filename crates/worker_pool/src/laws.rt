// What follows from a worker's calls.
ghost use Rattle.std.specs.Prelude.{◌≤◌, ℕ, List};
ghost use Rattle.mail_plan.specs.Means.{Made};
ghost use Rattle.mail_plan.specs.declared.outcome.Task.{Task};
ghost use Rattle.hub_calls.specs.declared.bench.BenchStep.{BenchStep};
ghost use Rattle.worker_pool.specs.Ends.{takes_in, Says};
ghost use Rattle.worker_pool.specs.Working.{IsWork};
ghost use Rattle.worker_pool.specs.declared.working.WorkerEnd.{WorkerEnd};

use mail_plan::Planner;

/// A worker ends stopped exactly where a take was answered so, with a fault exactly where a call was refused or memory was
/// wanted for a plan, and else with all its turns spent on takes.
///
/// In order, it commits what the planner makes of the tasks that it took; only the plan of the last may be wanting, where
/// there was no memory for it.
pub fn ends_say<T: Planner>()
    ensures most { (planned : Task T T.Org → Made T.Org) (residue workers turns : ℕ) (made : List (BenchStep T T.Org)) (end : WorkerEnd) →
        IsWork planned residue workers turns made end → takes_in made ≤ turns }
    ensures says { (planned : Task T T.Org → Made T.Org) (residue workers turns : ℕ) (made : List (BenchStep T T.Org)) (end : WorkerEnd) →
        IsWork planned residue workers turns made end → Says planned turns made end }
{}
