//! Worked corrections: the check computes them from the definitions that the contracts cite.

ghost use Rattle.changes.specs.Worked.{WorkedLate, WorkedMore, WorkedNothing, WorkedRuns, WorkedWicket, WorkedWides};

fn worked_changes()
    ensures wicket { WorkedWicket }
    ensures runs { WorkedRuns }
    ensures late { WorkedLate }
    ensures wides { WorkedWides }
    ensures nothing { WorkedNothing }
    ensures more { WorkedMore }
{}
