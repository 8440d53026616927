// Where a worker stands between the calls on its bench.
ghost use Rattle.std.specs.Prelude.{◌≡◌};
ghost use Rattle.worker_pool.specs.declared.gate.GateStep.{GateStep};

use hub_calls::TaskName;
use std::rt::Clock;
use std::thread;
use std::time::Duration;

/// What a worker tells its gate. Contracts speak of it; no value of it is made.
pub enum GateStep {
    Pass { task: TaskName },
    Idle,
}

/// What a worker passes before it plans, and where it waits when there is nothing to plan.
pub trait WorkGate {
    /// Which later gate a step may leave.
    ghost gives: { Self → GateStep → Self → Type 0 };

    /// This release was taken, and is planned next.
    fn pass(&mut self, task: TaskName)
        ensures { gives self.old (GateStep.Pass task) self.new };

    /// There was nothing to take.
    fn idle(&mut self)
        ensures { gives self.old GateStep.Idle self.new };
}

/// A gate that lets each release pass, and sleeps for a while where there was nothing to take.
#[derive(Drop)]
pub struct PauseGate<'a, R: Clock> {
    pub clock: &'a R,
    pub pause: Duration,
}

impl<'a, R: Clock> WorkGate for PauseGate<'a, R> {
    ghost gives = { λ before step after. after ≡ before };

    fn pass(&mut self, _task: TaskName) {}

    fn idle(&mut self) {
        thread::sleep(self.clock, self.pause);
    }
}
