// Whether the actions of a rule go together.
ghost use Rattle.std.specs.Prelude.{◌≡◌, filter, length};
ghost use Rattle.rule_terms.specs.Forms.{end_last, go_together, is_disclaimer, is_ending};

use crate::action::Action;

fn is_disclaimer(action: &Action) -> bool
    ensures { result ≡ is_disclaimer action.now }
{
    matches!(action, Action::Disclaimer { .. })
}

fn is_ending(action: &Action) -> bool
    ensures { result ≡ is_ending action.now }
{
    matches!(
        action,
        Action::RedirectTo { .. } | Action::Reject { .. } | Action::Approve { .. }
    )
}

fn disclaimers(actions: &[Action]) -> usize
    ensures { result ≡ length (filter is_disclaimer actions.now) }
{
    actions
        .iter()
        .filter(|action| is_disclaimer(*action))
        .count()
}

/// Whether no action that ends stands before another.
fn end_last(actions: &[Action]) -> bool
    ensures { result ≡ end_last actions.now }
{
    for (i, action) in actions.iter().enumerate() {
        if i + 1 < actions.len() && is_ending(action) {
            return false;
        }
    }
    true
}

/// Whether there is one disclaimer at most and no action that ends stands before another.
pub fn go_together(actions: &[Action]) -> bool
    ensures { result ≡ go_together actions.now }
{
    disclaimers(actions) <= 1 && end_last(actions)
}
