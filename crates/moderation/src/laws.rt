// What holds of an approval, whatever happens to it.
ghost use Rattle.std.specs.Prelude.{◌≡◌, ℕ, List, Some, None, false, find, if◌then◌else◌};
ghost use Rattle.moderation.specs.Approval.{Asked, decide_answer, is_pending};
ghost use Rattle.moderation.specs.Events.{Event, after_all, counts, is_decision, is_moderator, state_by, IsInOrder};
ghost use Rattle.moderation.specs.declared.approval.ApprovalState.TheVariants as states;
ghost use Rattle.moderation.specs.declared.approval.Decision.TheVariants as decisions;
ghost use Rattle.moderation.specs.declared.approval.Verdict.{Verdict};

/// Of all that happens to a pending approval the first event that counts alone says what it comes to: a moderator's
/// decision before the deadline, or a turn at or past it.
pub fn the_first_that_counts_stands()
    ensures { (a : Asked) (events : List Event) → a.state ≡ states.Pending →
        after_all events a ≡ record a { state = state_by a (find (counts a) events) } }
{}

/// The first decision by a moderator before the deadline counts, where no moment is before an earlier one. Without
/// such a decision none counts.
pub fn the_first_decision_in_time_counts()
    ensures some { (a : Asked) (events : List Event) (decision : Event) → a.state ≡ states.Pending → IsInOrder 0 events →
        find (is_decision a) events ≡ Some decision → (after_all events a).state ≡ state_by a (Some decision) }
    ensures none { (a : Asked) (events : List Event) (by : ℕ) (verdict : Verdict) → a.state ≡ states.Pending →
        find (is_decision a) events ≡ None → (after_all events a).state ≡ states.Decided by verdict → ⊥ }
{}

/// Nothing changes an approval that is decided or ended.
pub fn a_settled_approval_stays()
    ensures { (a : Asked) (events : List Event) → is_pending a.state ≡ false → after_all events a ≡ a }
{}

/// Whatever happens behind a decision, each moderator that decides is told of it.
pub fn later_deciders_are_told_of_the_first()
    ensures { (a : Asked) (events : List Event) (by : ℕ) (verdict : Verdict) (key : List ℕ) (moment : ℕ) →
        a.state ≡ states.Decided by verdict → decide_answer (after_all events a) key moment
        ≡ (if is_moderator a key then decisions.Already by verdict else decisions.NotModerator) }
{}
