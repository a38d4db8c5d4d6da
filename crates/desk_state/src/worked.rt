//! Worked examples: the check computes them from the definitions that the contract cites.

ghost use Rattle.desk_state.specs.Worked.{WorkedBatters, WorkedBook, WorkedBowlers, WorkedPlaces, WorkedWants};

fn worked_states()
    ensures wants { WorkedWants }
    ensures batters { WorkedBatters }
    ensures bowlers { WorkedBowlers }
    ensures places { WorkedPlaces }
{}

fn worked_book()
    ensures { WorkedBook }
{}
