//! The batting side's players who wait: who are neither out nor in.

ghost use Rattle.std.specs.Prelude.{◌≡◌, ◌<◌, ◌++◌, OnOk, codes, true};
ghost use Rattle.std.specs.List.{list_all};
ghost use Rattle.match_laws.specs.History.{begun};
ghost use Rattle.corrections.specs.CleanList.{history_of};
ghost use Rattle.cards.specs.Begun.{ForInnings};
ghost use Rattle.cards.specs.Sheet.{name_of};
ghost use Rattle.streams.specs.Watched.{Prints, TellsFailure};
ghost use Rattle.screen.specs.Waiting as waiting;
ghost use Rattle.notation.specs.Written.{is_player};

use crate::sides::{next_column, print_next};
use cards::{Innings, MatchSheet};
use corrections::BookOf;
use match_laws::Fate;
use notation::{Player, Side};
use streams::{Sink, Watched, WriteFailed};

/// Whether a player with this fate waits: he hasn't come in yet, or is retired hurt.
fn waits(fate: Option<Fate>) -> bool
    ensures { result ≡ waiting.waits fate }
{
    matches!(fate, None | Some(Fate::Hurt))
}

/// Prints the waiting players among these numbers, three in a row, from this column on.
fn print_those<W: Sink>(
    out: &mut Watched<W>,
    innings: Innings<'_>,
    column: u8,
    numbers: &[u8],
) -> Result<(), WriteFailed>
    requires column { column < 3 }
    requires numbers { list_all is_player numbers.now ≡ true }
    ensures text { ForInnings innings.entry (λ s h i. OnOk result (Prints W.contents out.old out.new
        (waiting.waiting s h i column numbers.now))) }
    ensures failed { TellsFailure result out.old out.new }
{
    let Some((number, more)) = numbers.split_first() else {
        return Ok(());
    };
    let Some(player) = Player::new(*number) else {
        return Ok(());
    };
    if !waits(innings.score.batting_row(innings.index, player).fate) {
        return print_those(out, innings, column, more);
    }
    print_next(out, innings.sheet, innings.side(), column, player)?;
    print_those(out, innings, next_column(column), more)
}

/// Prints all waiting players of the side that bats.
#[tactic(auto, unfolding(crate::specs::Waiting::all_waiting))]
fn print_all<W: Sink>(out: &mut Watched<W>, innings: Innings<'_>) -> Result<(), WriteFailed>
    ensures text { ForInnings innings.entry (λ s h i. OnOk result (Prints W.contents out.old out.new
        (waiting.all_waiting s h i))) }
    ensures failed { TellsFailure result out.old out.new }
{
    let all = [1, 2, 3, 4, 5, 6, 7, 8, 9, 10, 11];
    print_those(out, innings, 0, &all)
}

/// Prints a side's name and a colon, before its waiting players.
fn print_head<W: Sink>(
    out: &mut Watched<W>,
    sheet: &MatchSheet,
    side: Side,
) -> Result<(), WriteFailed>
    ensures text { OnOk result (Prints W.contents out.old out.new (name_of sheet.now side ++ codes ":")) }
    ensures failed { TellsFailure result out.old out.new }
{
    let team = sheet.name(side);
    write!(out, "{team}:")
}

/// Prints the side that bats in an innings, and its waiting players.
fn print_lines<W: Sink, B: BookOf>(
    out: &mut Watched<W>,
    sheet: &MatchSheet,
    book: &B,
    innings: usize,
) -> Result<(), WriteFailed>
    requires { innings < begun (history_of (B.content book.now)) }
    ensures text { OnOk result (Prints W.contents out.old out.new
        (waiting.waiting_lines sheet.now (history_of (B.content book.now)) innings)) }
    ensures failed { TellsFailure result out.old out.new }
{
    let score = book.score();
    print_head(out, sheet, score.side(innings))?;
    let innings = Innings {
        sheet,
        score,
        index: innings,
    };
    print_all(out, innings)?;
    writeln!(out)
}

/// Prints the waiting players of the side that bats, three in a row.
pub fn print_waiting<W: Sink, B: BookOf>(
    out: &mut Watched<W>,
    sheet: &MatchSheet,
    book: &B,
) -> Result<(), WriteFailed>
    ensures text { OnOk result (Prints W.contents out.old out.new
        (waiting.who_waits sheet.now (history_of (B.content book.now)))) }
    ensures failed { TellsFailure result out.old out.new }
{
    let begun = book.score().begun();
    if begun == 0 {
        return writeln!(out, "No play");
    }
    print_lines(out, sheet, book, begun - 1)
}
