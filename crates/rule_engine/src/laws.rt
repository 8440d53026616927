// What holds of fates and forks.
ghost use Rattle.rule_engine.specs.Growth.{FatesGrow, LongerOpensMore};
ghost use Rattle.rule_engine.specs.Parted.{EachLeafInOneFork};
ghost use Rattle.rule_engine.specs.Rendered.{FatesAreRendered};

/// With more gates opened what is kept, redirected or rejected stays so. What a rule holds keeps its copies, and stays the
/// same while that rule's gate isn't opened.
pub fn fates_grow()
    ensures { FatesGrow }
{}

/// A list of opened gates that goes on from another one opens what that opens.
pub fn a_longer_list_opens_more()
    ensures { LongerOpensMore }
{}

/// The text that a recipient keeps, or that is sent on for it, is what the edits that are done for it make of the message.
pub fn fates_are_rendered()
    ensures { FatesAreRendered }
{}

/// Each leaf stands in one fork, whose edits are the leaf's own.
pub fn each_leaf_in_one_fork()
    ensures { EachLeafInOneFork }
{}
