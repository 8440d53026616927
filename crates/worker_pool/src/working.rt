// A worker at a bench.
ghost use Rattle.std.specs.Prelude.{◌≡◌, ◌<◌, true, List, IfErr};
ghost use Rattle.hub_calls.specs.Benches.{Leads, bench_can_refuse};
ghost use Rattle.hub_calls.specs.Refusals.{HasCauses};
ghost use Rattle.hub_calls.specs.declared.bench.BenchCall.TheVariants as calls;
ghost use Rattle.worker_pool.specs.Planned.{planned};
ghost use Rattle.worker_pool.specs.Working.{HasWorked, HasTurned, HasDone, as_answer, end_answer};

use crate::WorkGate;
use hub_calls::{HubFault, Taking, TaskBench, TaskName};
use mail_plan::{Planner, Task, plan};
use std::alloc::Global;

/// How a worker's turns ended.
#[derive(Clone, Copy, Debug, PartialEq, Eq)]
pub enum WorkerEnd {
    /// The bench said that the work has ended.
    Stopped,
    /// All turns were made.
    Spent,
    /// A call of the bench was refused, or memory was wanted for a plan.
    Fault { fault: HubFault },
}

/// Works at a bench for so many turns, and takes the releases of the submissions whose number leaves this residue by the
/// number of workers.
///
/// In each turn it takes a release, passes the gate, plans the release and commits it. Where there was none to take, it idles
/// at the gate.
pub fn worker<T: Planner, B: TaskBench<T>, G: WorkGate>(
    alloc: Global,
    bench: &mut B,
    gate: &mut G,
    residue: u32,
    workers: u32,
    turns: u64,
) -> WorkerEnd
    requires { residue < workers }
    ensures worked { HasWorked B.gives G.gives (planned T.means) residue workers turns bench.old bench.new gate.old gate.new result }
    ensures causes { HasCauses (B.disk_faults bench.old) (B.disk_faults bench.new) (B.shelf_faults bench.old) (B.shelf_faults bench.new) (as_answer result) }
    ensures refuses { IfErr (as_answer result) (λ fault. bench_can_refuse calls.Commit fault ≡ true) }
{
    for _turn in 0..turns {
        if let Some(end) = work_turn::<T, B, G>(alloc, bench, gate, residue, workers) {
            return end;
        }
    }
    WorkerEnd::Spent
}

// One turn. It gives the worker's end where it brings it.
fn work_turn<T: Planner, B: TaskBench<T>, G: WorkGate>(
    alloc: Global,
    bench: &mut B,
    gate: &mut G,
    residue: u32,
    workers: u32,
) -> Option<WorkerEnd>
    requires { residue < workers }
    ensures turned { HasTurned B.gives G.gives (planned T.means) residue workers bench.old bench.new gate.old gate.new result }
    ensures causes { HasCauses (B.disk_faults bench.old) (B.disk_faults bench.new) (B.shelf_faults bench.old) (B.shelf_faults bench.new) (end_answer result) }
    ensures refuses { IfErr (end_answer result) (λ fault. bench_can_refuse calls.Commit fault ≡ true) }
{
    match bench.take(residue, workers) {
        Ok(Taking::Task { task }) => {
            gate.pass(TaskName {
                submission: task.input.number(),
                release: task.input.release(),
            });
            do_task::<T, B>(alloc, bench, task)
        }
        Ok(Taking::Nothing) => {
            gate.idle();
            None
        }
        Ok(Taking::Stopped) => Some(WorkerEnd::Stopped),
        Err(fault) => Some(WorkerEnd::Fault { fault }),
    }
}

// Plans a task and commits it.
fn do_task<T: Planner, B: TaskBench<T>>(
    alloc: Global,
    bench: &mut B,
    task: Task<T>,
) -> Option<WorkerEnd>
    ensures done { HasDone B.gives (planned T.means) task bench.old bench.new result }
    ensures causes { HasCauses (B.disk_faults bench.old) (B.disk_faults bench.new) (B.shelf_faults bench.old) (B.shelf_faults bench.new) (end_answer result) }
    ensures refuses { IfErr (end_answer result) (λ fault. bench_can_refuse calls.Commit fault ≡ true) }
{
    let Ok(outcome) = plan(alloc, task) else {
        return Some(WorkerEnd::Fault {
            fault: HubFault::NoMemory,
        });
    };
    match bench.commit(outcome) {
        Ok(_) => None,
        Err(fault) => Some(WorkerEnd::Fault { fault }),
    }
}
