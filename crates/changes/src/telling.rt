//! The rows that are printed after a correction.

ghost use Rattle.std.specs.Prelude.{◌≡◌, ◌+◌, ◌≤◌, ◌∷◌, [], true, length, map, IfOk, OnOk};
ghost use Rattle.std.specs.List.{list_all};
ghost use Rattle.ball_laws.specs.Over.{numbers as all_numbers};
ghost use Rattle.streams.specs.Watched.{Prints, TellsFailure};
ghost use Rattle.changes.specs.declared.change.Change.TheVariants as kinds;
ghost use Rattle.changes.specs.Changes as changes;
ghost use Rattle.changes.specs.Stage.{ForStages};
ghost use Rattle.changes.specs.Text as texts;
ghost use Rattle.changes.specs.inner.Telling.{Tells};
ghost use Rattle.notation.specs.Written.{is_player};

use crate::before::score_before;
use crate::change::{Change, Part};
use crate::differs::differs;
use crate::rows::print_change;
use crate::stages::Stages;
use cards::MatchSheet;
use corrections::BookOf;
use notation::{Player, Side};
use streams::{Sink, Watched, WriteFailed};

/// How many rows are printed at most.
const MOST: u32 = 6;

/// Prints this change's row if it differs and fewer than six changes came before. Returns how many changes
/// differ so far.
fn tell<W: Sink>(
    out: &mut Watched<W>,
    stages: Stages<'_>,
    told: u32,
    change: &Change,
) -> Result<u32, WriteFailed>
    requires { told ≤ 1000 }
    ensures text { ForStages stages.entry (λ s w n.
        Tells W.contents out.old out.new result s w n told (change.now ∷ [])) }
    ensures most { IfOk result (λ count. count ≤ told + 1) }
    ensures failed { TellsFailure result out.old out.new }
{
    if !differs(stages.before, stages.after, change) {
        return Ok(told);
    }
    if told < MOST {
        print_change(out, stages, change)?;
    }
    Ok(told + 1)
}

/// Prints the changes of this part, of these players of a side in an innings; counts as `tell` does.
fn tell_players<W: Sink>(
    out: &mut Watched<W>,
    stages: Stages<'_>,
    told: u32,
    part: Part,
    innings: usize,
    side: Side,
    numbers: &[u8],
) -> Result<u32, WriteFailed>
    requires numbers { list_all is_player numbers.now ≡ true }
    requires room { told + length numbers.now ≤ 1000 }
    ensures text { ForStages stages.entry (λ s w n. Tells W.contents out.old out.new result s w n told
        (changes.of_players part innings side numbers.now)) }
    ensures most { IfOk result (λ count. count ≤ told + length numbers.now) }
    ensures failed { TellsFailure result out.old out.new }
{
    let Some((number, more)) = numbers.split_first() else {
        return Ok(told);
    };
    let Some(player) = Player::new(*number) else {
        return Ok(told);
    };
    let change = Change::Player(part, innings, side, player);
    let told = tell(out, stages, told, &change)?;
    tell_players(out, stages, told, part, innings, side, more)
}

/// Prints the changes of this part, of all players of a side in an innings; counts as `tell` does.
fn tell_side<W: Sink>(
    out: &mut Watched<W>,
    stages: Stages<'_>,
    told: u32,
    part: Part,
    innings: usize,
    side: Side,
) -> Result<u32, WriteFailed>
    requires { told ≤ 900 }
    ensures text { ForStages stages.entry (λ s w n. Tells W.contents out.old out.new result s w n told
        (changes.of_players part innings side all_numbers)) }
    ensures most { IfOk result (λ count. count ≤ told + 11) }
    ensures failed { TellsFailure result out.old out.new }
{
    tell_players(
        out,
        stages,
        told,
        part,
        innings,
        side,
        &[1, 2, 3, 4, 5, 6, 7, 8, 9, 10, 11],
    )
}

/// Prints the changes of this part, of all players of both sides in an innings; counts as `tell` does.
fn tell_sides<W: Sink>(
    out: &mut Watched<W>,
    stages: Stages<'_>,
    told: u32,
    part: Part,
    innings: usize,
) -> Result<u32, WriteFailed>
    requires { told ≤ 800 }
    ensures text { ForStages stages.entry (λ s w n. Tells W.contents out.old out.new result s w n told
        (changes.of_sides part innings)) }
    ensures most { IfOk result (λ count. count ≤ told + 22) }
    ensures failed { TellsFailure result out.old out.new }
{
    let told = tell_side(out, stages, told, part, innings, Side::Home)?;
    tell_side(out, stages, told, part, innings, Side::Away)
}

/// Prints the changes of this part, in each innings that a match can have; counts as `tell` does.
fn tell_part<W: Sink>(
    out: &mut Watched<W>,
    stages: Stages<'_>,
    told: u32,
    part: Part,
) -> Result<u32, WriteFailed>
    requires { told ≤ 600 }
    ensures text { ForStages stages.entry (λ s w n. Tells W.contents out.old out.new result s w n told
        (changes.in_all (changes.of_sides part))) }
    ensures most { IfOk result (λ count. count ≤ told + 88) }
    ensures failed { TellsFailure result out.old out.new }
{
    let told = tell_sides(out, stages, told, part, 0)?;
    let told = tell_sides(out, stages, told, part, 1)?;
    let told = tell_sides(out, stages, told, part, 2)?;
    tell_sides(out, stages, told, part, 3)
}

/// Prints the totals of both sides in an innings that differ; counts as `tell` does.
fn tell_totals<W: Sink>(
    out: &mut Watched<W>,
    stages: Stages<'_>,
    told: u32,
    innings: usize,
) -> Result<u32, WriteFailed>
    requires { told ≤ 900 }
    ensures text { ForStages stages.entry (λ s w n. Tells W.contents out.old out.new result s w n told
        (changes.of_totals innings)) }
    ensures most { IfOk result (λ count. count ≤ told + 2) }
    ensures failed { TellsFailure result out.old out.new }
{
    let told = tell(out, stages, told, &Change::Total(innings, Side::Home))?;
    tell(out, stages, told, &Change::Total(innings, Side::Away))
}

/// Prints the totals that differ in each innings that a match can have; counts as `tell` does.
fn tell_all_totals<W: Sink>(
    out: &mut Watched<W>,
    stages: Stages<'_>,
    told: u32,
) -> Result<u32, WriteFailed>
    requires { told ≤ 800 }
    ensures text { ForStages stages.entry (λ s w n. Tells W.contents out.old out.new result s w n told
        (changes.in_all changes.of_totals)) }
    ensures most { IfOk result (λ count. count ≤ told + 8) }
    ensures failed { TellsFailure result out.old out.new }
{
    let told = tell_totals(out, stages, told, 0)?;
    let told = tell_totals(out, stages, told, 1)?;
    let told = tell_totals(out, stages, told, 2)?;
    tell_totals(out, stages, told, 3)
}

/// Prints the result and the strike if they differ; counts as `tell` does.
fn tell_match<W: Sink>(
    out: &mut Watched<W>,
    stages: Stages<'_>,
    told: u32,
) -> Result<u32, WriteFailed>
    requires { told ≤ 900 }
    ensures text { ForStages stages.entry (λ s w n. Tells W.contents out.old out.new result s w n told
        (kinds.Result ∷ kinds.Strike ∷ [])) }
    ensures most { IfOk result (λ count. count ≤ told + 2) }
    ensures failed { TellsFailure result out.old out.new }
{
    let told = tell(out, stages, told, &Change::Result)?;
    tell(out, stages, told, &Change::Strike)
}

/// Prints the first six of all changes, and returns how many changes there are.
fn tell_all<W: Sink>(out: &mut Watched<W>, stages: Stages<'_>) -> Result<u32, WriteFailed>
    ensures text { ForStages stages.entry (λ s w n.
        Tells W.contents out.old out.new result s w n 0 changes.all_changes) }
    ensures failed { TellsFailure result out.old out.new }
{
    let told = tell_part(out, stages, 0, Part::Fate)?;
    let told = tell_all_totals(out, stages, told)?;
    let told = tell_match(out, stages, told)?;
    let told = tell_part(out, stages, told, Part::Figures)?;
    tell_part(out, stages, told, Part::Bowling)
}

/// Prints how many changes there are beyond the six that are printed, if any.
fn print_more<W: Sink>(out: &mut Watched<W>, count: u32) -> Result<(), WriteFailed>
    ensures text { OnOk result (Prints W.contents out.old out.new (texts.more_text count)) }
    ensures failed { TellsFailure result out.old out.new }
{
    if count <= MOST {
        return Ok(());
    }
    let more = count - MOST;
    writeln!(out, ".. and {more} more: card")
}

/// Prints the changes between two stages of a match: a row for each of the first six, and how many more there
/// are.
pub fn print_changes<W: Sink>(out: &mut Watched<W>, stages: Stages<'_>) -> Result<(), WriteFailed>
    ensures text { ForStages stages.entry (λ s w n.
        OnOk result (Prints W.contents out.old out.new (texts.changes_text s w n))) }
    ensures failed { TellsFailure result out.old out.new }
{
    let count = tell_all(out, stages)?;
    print_more(out, count)
}

/// Prints what the last entry of a book has changed, if that is a `fix` or a `late`.
pub fn print_last_changes<W: Sink, B: BookOf>(
    out: &mut Watched<W>,
    sheet: &MatchSheet,
    book: &B,
) -> Result<(), WriteFailed>
    ensures text { OnOk result (Prints W.contents out.old out.new
        (texts.last_changes sheet.now (B.innings_a_side book.now) (B.content book.now))) }
    ensures failed { TellsFailure result out.old out.new }
{
    match score_before(book) {
        None => Ok(()),
        Some(before) => {
            let stages = Stages {
                sheet,
                before: &before,
                after: book.score(),
            };
            print_changes(out, stages)
        }
    }
}
