// Laws of the releases of one submission, by any planner.
ghost use Rattle.std.specs.Prelude.{◌≡◌, ◌<◌, List, ℕ, true, false};
ghost use Rattle.mail_names.specs.declared.gate.Gate.{Gate};
ghost use Rattle.mail_plan.specs.Planning.{Input, Opening, is_among, is_gate_among, are_distinct, targets, gates_of, input_at, all_targets};

use crate::Planner;

/// No target is sent by two releases of a submission.
pub fn no_target_twice<T: Planner>()
    ensures { (org : T.Org) (base : Input) (approved : List Opening) (earlier later : ℕ) (target : List ℕ) → earlier < later →
        is_among target (targets (T.means.release_of org (input_at base approved earlier)).items) ≡ true →
        is_among target (targets (T.means.release_of org (input_at base approved later)).items) ≡ false }
{}

/// No gate is met by two releases of a submission.
pub fn no_gate_twice<T: Planner>()
    ensures { (org : T.Org) (base : Input) (approved : List Opening) (earlier later : ℕ) (gate : Gate) → earlier < later →
        is_gate_among gate (gates_of (T.means.release_of org (input_at base approved earlier)).holds) ≡ true →
        is_gate_among gate (gates_of (T.means.release_of org (input_at base approved later)).holds) ≡ false }
{}

/// Over all releases of a submission each target is sent once.
pub fn each_target_once<T: Planner>()
    ensures { (org : T.Org) (base : Input) (approved : List Opening) (count : ℕ) →
        are_distinct (all_targets (T.means.release_of org) base approved count) ≡ true }
{}
