// What holds of releases.
ghost use Rattle.std.specs.Prelude.{◌≡◌, ◌++◌, ℕ, List, Ok, true, false};
ghost use Rattle.mail_names.specs.declared.gate.Gate.{Gate};
ghost use Rattle.mail_plan.specs.Fits.{IsRelease};
ghost use Rattle.mail_plan.specs.Planning.{Input, IsInput, Continues, Reports, is_release, is_among, are_distinct, is_gate_among, are_distinct_gates, targets, gates_of};
ghost use Rattle.categorizer.specs.Organisation.{Organisation, organisation_of};
ghost use Rattle.mail_submission.specs.Base.{base_message};
ghost use Rattle.categorizer.specs.Growth.{PlanGrows};
ghost use Rattle.categorizer.specs.Plan.{plan};
ghost use Rattle.categorizer.specs.Releasing.{takes, case_of, hub_release};

/// The release of an organisation that was read has the form of one.
pub fn releases_have_their_form()
    ensures { (org : Organisation) (input : Input) → organisation_of org.directory_text org.rules_text ≡ Ok org →
        is_release input.number input.release (hub_release org input) ≡ true }
{}

/// No two versions of a release have one target.
pub fn targets_stand_once()
    ensures { (org : Organisation) (input : Input) → are_distinct (targets (hub_release org input).items) ≡ true }
{}

/// No two holds of a release have one gate.
pub fn gates_stand_once()
    ensures { (org : Organisation) (input : Input) → are_distinct_gates (gates_of (hub_release org input).holds) ≡ true }
{}

/// What a release sent to, no later one of the submission sends to.
pub fn targets_are_sent_once()
    ensures { (org : Organisation) (earlier later : Input) → Continues earlier later → (target : List ℕ) →
        is_among target (targets (hub_release org earlier).items) ≡ true → is_among target (targets (hub_release org later).items) ≡ false }
{}

/// A gate that a release met, no later one of the submission meets.
pub fn gates_are_met_once()
    ensures { (org : Organisation) (earlier later : Input) → Continues earlier later → (gate : Gate) →
        is_gate_among gate (gates_of (hub_release org earlier).holds) ≡ true → is_gate_among gate (gates_of (hub_release org later).holds) ≡ false }
{}

/// As gates are opened, targets sent and leaves rejected stay, and a gate that is met stays or is opened.
pub fn plans_grow()
    ensures { (org : Organisation) (input : Input) (opened more : List Gate) → PlanGrows (opened ++ more)
        (plan (case_of org input (base_message input.number input.submission.bytes)) opened)
        (plan (case_of org input (base_message input.number input.submission.bytes)) (opened ++ more)) }
{}

/// Each mailbox that takes a version of a release gets one report of it, which lists exactly the versions that it takes, in
/// their order. The release is one that an entry can hold.
pub fn reports_list_what_is_taken()
    ensures { (org : Organisation) (input : Input) → IsInput input → IsRelease (hub_release org input) →
        Reports (takes org input.submission.reverse) (hub_release org input) }
{}
