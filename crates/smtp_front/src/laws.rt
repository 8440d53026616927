// Laws on a session's text.
ghost use Rattle.std.specs.Prelude.{◌≡◌, ◌≤◌, ◌++◌, ℕ, List, Some, None, length, map};
ghost use Rattle.smtp_front.specs.declared.react.Phase.{Phase};
ghost use Rattle.smtp_front.specs.declared.dialog.Event.{Event};
ghost use Rattle.smtp_front.specs.Turns.{Turn, Goes};
ghost use Rattle.smtp_front.specs.Events.{Held, fed, next_of};

/// However a text is cut, the same is held.
pub fn cutting_is_free()
    ensures { (held : Held) (first second : List ℕ) → fed (fed held first) second ≡ fed held (first ++ second) }
{}

/// What comes behind changes no event.
pub fn events_are_settled()
    ensures { (held : Held) (text : List ℕ) (event : Event) → (next_of held).event ≡ Some event →
        next_of (fed held text) ≡ record { event = Some event; held = fed (next_of held).held text } }
{}

/// Where no whole event is held behind some turns, no others of the same text are more.
pub fn no_turn_is_left()
    ensures { (phase : Phase) (held : Held) (turns others : List Turn) (end end' : Phase) (left left' : Held) →
        Goes phase held turns end left → (next_of left).event ≡ None → Goes phase held others end' left' → length others ≤ length turns }
{}

/// A text gives one list of events to a session.
pub fn turns_are_determined()
    ensures { (phase : Phase) (held : Held) (turns others : List Turn) (end end' : Phase) (left left' : Held) →
        Goes phase held turns end left → Goes phase held others end' left' → length turns ≡ length others →
        map (λ (t : Turn). t.event) turns ≡ map (λ (t : Turn). t.event) others }
{}
