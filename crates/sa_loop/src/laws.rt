ghost use Rattle.sa_loop.specs.Laws.{PartsTellWeights, LayoutsShowItems, CallsLeaveRest};
ghost use Rattle.sa_loop.specs.OneHistory.{OneHistory};
ghost use Rattle.sa_loop.specs.Orders.{OneOrder};

/// A part tells the weight of what its call takes there, heavy or not: its clause is the law.
pub fn parts_tell_weights()
    ensures { PartsTellWeights }
{}

/// In each world that calls leave, a descriptor's layout has the items of its arrays, entry by entry: its
/// clause is the law.
pub fn layouts_show_items()
    ensures { LayoutsShowItems }
{}

/// The effect of a call changes only the array of its output and the layout of that one's home: its clause
/// is the law.
pub fn calls_leave_rest()
    ensures { CallsLeaveRest }
{}

/// A list of lines under one declaration whose chains agree, a chain for each descriptor, is a play of its
/// calls from the opening contents: its clause is the law.
pub fn one_order()
    ensures { OneOrder }
{}

/// The lines of an ended journal are one history of the tasks' calls, with marks, and a play of them, where
/// the chain of each descriptor agrees and each task is done: its clause is the law.
pub fn one_history()
    ensures { OneHistory }
{}
