// Theorems about the rules of edits, each the contract of a function that does nothing else.
ghost use Rattle.netlist.specs.Laws.{EditsDetermined, OrderExcludesLoops, RefusedForLoops, Worked};

// An edit on a board has one outcome.
pub fn edits_are_determined()
    ensures { EditsDetermined }
{}

// An order in which each gate stands behind what feeds it leaves no loop.
pub fn order_excludes_loops()
    ensures { OrderExcludesLoops }
{}

// Where no smaller number applies, an edit is refused with 25 if and only if the netlist that it asks for has a loop.
pub fn loops_are_refused()
    ensures { RefusedForLoops }
{}

// The worked cases hold of the rules.
pub fn worked_cases_hold()
    ensures { Worked }
{}
