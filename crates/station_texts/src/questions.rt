//! What a scorer is told of a line that is unclear or has a fault.

ghost use Rattle.std.specs.Prelude.{◌≡◌, ◌++◌, codes, true, filter, OnOk};
ghost use Rattle.std.specs.List.{list_all};
ghost use Rattle.cards.specs.Sheet.{team_of};
ghost use Rattle.shorthand.specs.Candidates.{candidates, has_beginning};
ghost use Rattle.streams.specs.Watched.{Prints, TellsFailure};
ghost use Rattle.notation.specs.Written.{is_player};
ghost use Rattle.screen.specs.Sides.{listed};
ghost use Rattle.station_texts.specs.Questions as questions;

use cards::MatchSheet;
use notation::{LineFault, Player, Side};
use screen::{fault_sentence, print_player, print_unknown};
use shorthand::{Letter, Unaided, Unclear, has_beginning};
use streams::{Sink, Watched, WriteFailed};

/// Prints a line's fault.
fn print_fault<W: Sink>(out: &mut Watched<W>, fault: LineFault) -> Result<(), WriteFailed>
    ensures text { OnOk result (Prints W.contents out.old out.new (questions.fault_text fault)) }
    ensures failed { TellsFailure result out.old out.new }
{
    let code = fault.number();
    let sentence = fault_sentence(fault);
    writeln!(out, "fault {code} {fault}: {sentence}")
}

/// Prints those of the numbered players whose name has a word with this beginning.
fn print_those<W: Sink>(
    out: &mut Watched<W>,
    sheet: &MatchSheet,
    side: Side,
    beginning: &str,
    numbers: &[u8],
    is_first: bool,
) -> Result<(), WriteFailed>
    requires { list_all is_player numbers.now ≡ true }
    ensures text { OnOk result (Prints W.contents out.old out.new
        (listed (team_of sheet.now side) is_first
        (filter (λ n. has_beginning (team_of sheet.now side) beginning.now n) numbers.now))) }
    ensures failed { TellsFailure result out.old out.new }
{
    let Some((number, more)) = numbers.split_first() else {
        return Ok(());
    };
    let Some(player) = Player::new(*number) else {
        return Ok(());
    };
    if !has_beginning(sheet, side, player, beginning) {
        return print_those(out, sheet, side, beginning, more, is_first);
    }
    print_player(out, sheet, side, player, is_first)?;
    print_those(out, sheet, side, beginning, more, false)
}

/// Prints all players of a side whose name has a word with this beginning.
fn print_all<W: Sink>(
    out: &mut Watched<W>,
    sheet: &MatchSheet,
    side: Side,
    name: &str,
) -> Result<(), WriteFailed>
    ensures text { OnOk result (Prints W.contents out.old out.new
        (listed (team_of sheet.now side) true (candidates (team_of sheet.now side) name.now))) }
    ensures failed { TellsFailure result out.old out.new }
{
    let numbers = [1, 2, 3, 4, 5, 6, 7, 8, 9, 10, 11];
    print_those(out, sheet, side, name, &numbers, true)
}

/// Prints which players of a side a name may mean.
fn print_candidates<W: Sink>(
    out: &mut Watched<W>,
    sheet: &MatchSheet,
    side: Side,
    name: &str,
) -> Result<(), WriteFailed>
    ensures text { OnOk result (Prints W.contents out.old out.new
        (codes "which one? "
        ++ listed (team_of sheet.now side) true (candidates (team_of sheet.now side) name.now)
        ++ codes "\n")) }
    ensures failed { TellsFailure result out.old out.new }
{
    write!(out, "which one? ")?;
    print_all(out, sheet, side, name)?;
    writeln!(out)
}

/// Prints that no player has this name.
fn print_no_such<W: Sink>(out: &mut Watched<W>, name: &str) -> Result<(), WriteFailed>
    ensures text { OnOk result (Prints W.contents out.old out.new
        (codes "no such player: " ++ name.now ++ codes "\n")) }
    ensures failed { TellsFailure result out.old out.new }
{
    writeln!(out, "no such player: {name}")
}

/// Prints that the latest innings has no such delivery.
fn print_no_such_ball<W: Sink>(out: &mut Watched<W>, name: &str) -> Result<(), WriteFailed>
    ensures text { OnOk result (Prints W.contents out.old out.new
        (codes "no such ball: " ++ name.now ++ codes "\n")) }
    ensures failed { TellsFailure result out.old out.new }
{
    writeln!(out, "no such ball: {name}")
}

/// Prints both meanings of a letter.
fn print_meanings<W: Sink>(out: &mut Watched<W>, letter: Letter) -> Result<(), WriteFailed>
    ensures text { OnOk result (Prints W.contents out.old out.new (questions.meanings letter)) }
    ensures failed { TellsFailure result out.old out.new }
{
    match letter {
        Letter::B => writeln!(out, "b: byes are b1, b2, .., a wicket is bowled"),
        Letter::W => writeln!(out, "w: a wide is wd, a wicket bowled, caught, .."),
    }
}

/// Prints that this way of being out involves no fielder.
fn print_no_fielder<W: Sink>(
    out: &mut Watched<W>,
    how: Unaided,
    name: &str,
) -> Result<(), WriteFailed>
    ensures text { OnOk result (Prints W.contents out.old out.new
        (questions.way_text how ++ codes " has no fielder: " ++ name.now ++ codes " bowls?\n")) }
    ensures failed { TellsFailure result out.old out.new }
{
    match how {
        Unaided::Bowled => writeln!(out, "bowled has no fielder: {name} bowls?"),
        Unaided::Lbw => writeln!(out, "lbw has no fielder: {name} bowls?"),
    }
}

/// Prints what is unclear in a line.
pub(crate) fn print_unclear<W: Sink>(
    out: &mut Watched<W>,
    sheet: &MatchSheet,
    unclear: &Unclear,
) -> Result<(), WriteFailed>
    ensures text { OnOk result (Prints W.contents out.old out.new (questions.unclear_text sheet.now unclear.now)) }
    ensures failed { TellsFailure result out.old out.new }
{
    match unclear {
        Unclear::Fault(fault) => print_fault(out, *fault),
        Unclear::WhoBowls => writeln!(out, "who bowls? begin with the bowler, as 10: ."),
        Unclear::WhoIsOut => writeln!(
            out,
            "who is out? striker or other comes first, as ro striker 8"
        ),
        Unclear::NoSuchPlayer(name) => print_no_such(out, name.as_str()),
        Unclear::TwoMeanings(letter) => print_meanings(out, *letter),
        Unclear::NoFielder(how, name) => print_no_fielder(out, *how, name.as_str()),
        Unclear::UnknownWord(word) => print_unknown(out, word.as_str()),
        Unclear::NoSuchBall(name) => print_no_such_ball(out, name.as_str()),
        Unclear::WhichPlayer(side, name) => print_candidates(out, sheet, *side, name.as_str()),
        Unclear::NothingStands => writeln!(out, "undo: no entry stands"),
    }
}
