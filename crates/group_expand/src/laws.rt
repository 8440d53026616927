// What holds of expansions.
ghost use Rattle.group_expand.specs.Before.{ExpandsAsBefore};
ghost use Rattle.group_expand.specs.Expansion.{MoreGatesOpen};
ghost use Rattle.group_expand.specs.Paths.{ListsEvery};
ghost use Rattle.group_expand.specs.Places.{CostsEntriesAndCarriers};
ghost use Rattle.group_expand.specs.Routes.{LeavesStay, ClosedStay};

/// With more gates opened every leaf stays a leaf.
pub fn leaves_stay()
    ensures { LeavesStay }
{}

/// With more gates opened a closed object that was met is met, unless its own gate was opened.
pub fn closed_objects_stay()
    ensures { ClosedStay }
{}

/// The listing has ALL paths without a repeated key, and nothing else.
pub fn every_path_is_listed()
    ensures { ListsEvery }
{}

/// A walk costs a call for each member entry and forward, and one for each group and mailbox that forwards, at most.
pub fn a_walk_costs_entries_and_carriers()
    ensures { CostsEntriesAndCarriers }
{}

/// Where no mailbox forwards, the leaves are those that groups alone give, and each step of a route is a group.
pub fn without_forwards_groups_alone_lead_on()
    ensures { ExpandsAsBefore }
{}

/// More gates open: fewer objects are closed.
pub fn more_gates_close_fewer()
    ensures { MoreGatesOpen }
{}
