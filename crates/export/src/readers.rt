//! What an export says about its players.
//!
//! These functions do nothing: each stands for the laws that it ensures.

ghost use Rattle.std.specs.Prelude.{ℕ, List, All};
ghost use Rattle.notation.specs.declared.entry.Entry.{Entry};
ghost use Rattle.notation.specs.Written.{IsEntry};
ghost use Rattle.ball_laws.specs.History.{History};
ghost use Rattle.corrections.specs.Legal.{IsLegalBook};
ghost use Rattle.cards.specs.Sheet.{Sheet};
ghost use Rattle.export.specs.Readers.{BallsAddUp, BattersAddUp, BowlersAddUp, EachExtraAddsUp, NamesTellPlayers, OversAreSixes};
ghost use Rattle.export.specs.WorkedSums.{WorkedSums};

/// Summed up by name over the deliveries of an innings in an export, a batter's runs and balls are those of the card. So are
/// his fours and sixes, except for boundaries on which more was run than the boundary counts.
pub fn batters_add_up()
    ensures { (s : Sheet) → (n : ℕ) → (book : List Entry) → All IsEntry book → IsLegalBook n book → BattersAddUp s book }
{}

/// Summed up likewise, a bowler's runs, wickets, wides and no-balls are those of the card. His balls are those that the card
/// counts, and dead balls. Where each over had six balls, the card counts six for each of his overs, and his odd balls. His
/// overs and maidens are those of the card, the open over, and those that players of his name bowled between them.
pub fn bowlers_add_up()
    ensures bowlers { (s : Sheet) → (n : ℕ) → (book : List Entry) → All IsEntry book → IsLegalBook n book → BowlersAddUp s book }
    ensures sixes { (h : History) → OversAreSixes h }
{}

/// Summed up over all deliveries of an innings in an export, the extras of each kind are those of the card, with the penalty
/// runs that no delivery carries. Where each over had six balls, so are the balls of its overs, but for dead balls.
pub fn extras_add_up()
    ensures extras { (s : Sheet) → (n : ℕ) → (book : List Entry) → All IsEntry book → IsLegalBook n book → EachExtraAddsUp s book }
    ensures balls { (s : Sheet) → (n : ℕ) → (book : List Entry) → All IsEntry book → IsLegalBook n book → BallsAddUp s book }
{}

/// Where no other player of the card has a player's name, the sum over the card's players of that name is his own figure.
#[tactic(auto, using(crate::proofs::ReaderSums::names_tell_players))]
pub fn names_tell_players()
    ensures { (s : Sheet) → (h : History) → (i p : ℕ) → (figure : History → ℕ → ℕ → ℕ) → NamesTellPlayers s h i p figure }
{}

/// Worked sums, which the check computes from the definitions that these laws cite.
fn worked_sums()
    ensures { WorkedSums }
{}
