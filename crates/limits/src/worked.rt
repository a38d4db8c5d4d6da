//! Worked rows: the check computes them from the definitions that the contracts cite.

ghost use Rattle.limits.specs.Worked.{WorkedBowlers, WorkedFreedom, WorkedLeft, WorkedNeeds, WorkedRates};

fn worked_limits()
    ensures left { WorkedLeft }
    ensures needs { WorkedNeeds }
    ensures rates { WorkedRates }
    ensures bowlers { WorkedBowlers }
    ensures freedom { WorkedFreedom }
{}
