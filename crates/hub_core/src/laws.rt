// What holds of what a history prescribes.
ghost use Rattle.std.specs.Prelude.{◌≡◌, ◌≢◌, ℕ, suc, true, List, length, map};
ghost use Rattle.std.specs.List.{AllPairs, AllByRecursion};
ghost use Rattle.mail_names.specs.declared.name.ItemName.{ItemName};
ghost use Rattle.mail_plan.specs.Planning.{are_distinct, all_targets, first_input};
ghost use Rattle.log_entry.specs.declared.entry.Entry.{Entry};
ghost use Rattle.log_entry.specs.Entries.{IsEntry};
ghost use Rattle.hub_core.specs.declared.limits.Limits.{Limits};
ghost use Rattle.hub_core.specs.declared.queue.QueuedItem.{QueuedItem};
ghost use Rattle.hub_core.specs.Setup.{setup_of};
ghost use Rattle.hub_core.specs.Items.{Accepted, items, Among, IsHistory};
ghost use Rattle.hub_core.specs.Journal.{IsJournaled};

use mail_plan::Planner;

/// No two items that entries prescribe have one name, be they lawful or not.
pub fn names_are_unique<T: Planner>()
    ensures { (limits : Limits) (history : List Entry) →
        AllPairs (λ (a b : ItemName). a ≢ b) (map (λ (item : QueuedItem). item.name) (items (setup_of T.means limits) history)) }
{}

/// Two items that entries prescribe under one name are one, be the entries lawful or not.
pub fn a_name_is_of_one_item<T: Planner>()
    ensures { (limits : Limits) (history : List Entry) (x y : QueuedItem) →
        Among x (items (setup_of T.means limits) history) → Among y (items (setup_of T.means limits) history) → x.name ≡ y.name → x ≡ y }
{}

/// Over all releases of a submission, of whatever organisation and behind whatever gates, no two versions have one target.
pub fn each_target_once<T: Planner>()
    ensures { (limits : Limits) (number : ℕ) (a : Accepted) →
        are_distinct (all_targets ((setup_of T.means limits).release_of a.org) (first_input number a.epoch a.moment a.submission) a.opened (suc (length a.opened))) ≡ true }
{
    mail_plan::laws::each_target_once::<T>();
}

/// Of each submission that a history accepted, the reports of its categorised releases to a mailbox, read one behind another,
/// list exactly the versions of these releases that the mailbox takes, each once, with why it is a target.
pub fn reports_list_what_is_sent<T: Planner>()
    ensures { (limits : Limits) (history : List Entry) →
        IsHistory (setup_of T.means limits) history → AllByRecursion IsEntry history →
        IsJournaled (setup_of T.means limits) history }
{
    mail_plan::laws::no_target_twice::<T>();
}
