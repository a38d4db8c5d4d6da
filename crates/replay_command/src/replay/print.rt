//! The printed lines of a replay.

ghost use Rattle.std.specs.Prelude.{◌≡◌, ◌++◌, option_map, string_bytes, IfOk, OnOk};
ghost use Rattle.entry_log.specs.declared.mem_disk.MemDisk.{MemDisk};
ghost use Rattle.match_laws.specs.Stands.{ForEachHistory};
ghost use Rattle.streams.specs.Watched.{IsHandedOn, Prints, TellsFailure};
ghost use Rattle.schedule_replay.specs.CodeWorlds.{HasConfiguration, board_state};
ghost use Rattle.world_desks.specs.Lent.{lent_desk};
ghost use Rattle.world_desks.specs.WorldDesks.{state_of};
ghost use Rattle.headline.specs.Configurations.{Configuration};
ghost use Rattle.replay_command.specs.Replay as texts;

use board::Board;
use corrections::{BookOf, CheckedBook};
use match_laws::Match;
use schedule_replay::{AnyDesk, Seen, World};
use std::alloc::{AllocError, Global};
use streams::{Sink, Watched, WriteFailed};

/// Prints the answer to the event of this number.
fn print_event<W: Sink>(out: &mut Watched<W>, number: usize, seen: &Seen) -> Result<(), WriteFailed>
    ensures text { OnOk result (Prints W.contents out.old out.new (texts.event_line number seen.now)) }
    ensures failed { TellsFailure result out.old out.new }
{
    writeln!(out, "{number} {seen}")
}

/// Prints a line for the answer to each event, numbered from 1.
fn print_events<W: Sink>(out: &mut Watched<W>, outcomes: &[Seen]) -> Result<(), WriteFailed>
    ensures text { OnOk result (Prints W.contents out.old out.new (texts.event_lines outcomes.now)) }
    ensures failed { TellsFailure result out.old out.new }
{
    for (before, seen) in outcomes.iter().enumerate() {
        print_event(out, before + 1, seen)?;
    }
    Ok(())
}

/// Prints how many entries a book has, and the score of the innings that began last.
fn print_book<W: Sink>(out: &mut Watched<W>, entries: u32, score: &Match) -> Result<(), WriteFailed>
    ensures text { ForEachHistory score.now (λ n h.
        OnOk result (Prints W.contents out.old out.new (texts.book_words entries h))) }
    ensures failed { TellsFailure result out.old out.new }
{
    let begun = score.begun();
    if begun == 0 {
        return writeln!(out, " {entries} no play");
    }
    let runs = score.total(begun - 1);
    let wickets = score.wickets(begun - 1);
    writeln!(out, " {entries} {runs} for {wickets}")
}

/// Prints the line of a desk, which is `None` if it is down.
fn print_desk<W: Sink>(
    out: &mut Watched<W>,
    name: &str,
    desk: Option<AnyDesk<'_>>,
) -> Result<(), WriteFailed>
    ensures text { OnOk result (Prints W.contents out.old out.new
        (texts.desk_line name.now (option_map (λ k. state_of (lent_desk k)) desk.entry))) }
    ensures failed { TellsFailure result out.old out.new }
{
    match desk {
        Some(desk) => {
            write!(out, "{name}")?;
            print_book(out, desk.book().len(), desk.shown())
        }
        None => writeln!(out, "{name} down"),
    }
}

/// Prints the line of the board of this number.
fn print_board<W: Sink>(
    out: &mut Watched<W>,
    number: usize,
    board: &Board<CheckedBook>,
) -> Result<(), WriteFailed>
    ensures text { OnOk result (Prints W.contents out.old out.new
        (texts.board_line number (board_state board.now))) }
    ensures failed { TellsFailure result out.old out.new }
{
    write!(out, "{number}")?;
    print_book(out, board.book().len(), board.shown())
}

/// Prints the lines of the boards, numbered from 1.
fn print_boards<W: Sink>(
    out: &mut Watched<W>,
    boards: &[Board<CheckedBook>],
) -> Result<(), WriteFailed>
    ensures text { OnOk result (Prints W.contents out.old out.new
        (texts.numbered (λ n k. texts.board_line n (board_state k)) 1 boards.now)) }
    ensures failed { TellsFailure result out.old out.new }
{
    for (before, board) in boards.iter().enumerate() {
        print_board(out, before + 1, board)?;
    }
    Ok(())
}

/// Prints the lines of both desks and the boards of a world.
fn print_stations<W: Sink>(out: &mut Watched<W>, world: &World) -> Result<(), WriteFailed>
    ensures text { (w : Configuration MemDisk) → HasConfiguration world.now w →
        OnOk result (Prints W.contents out.old out.new (texts.station_lines w)) }
    ensures failed { TellsFailure result out.old out.new }
{
    let (a, b, boards) = world.stations();
    print_desk(out, "a", a)?;
    print_desk(out, "b", b)?;
    print_boards(out, boards)
}

/// Prints how many entries are agreed.
fn print_agreed<W: Sink>(out: &mut Watched<W>, entries: usize) -> Result<(), WriteFailed>
    ensures text { OnOk result (Prints W.contents out.old out.new (texts.agreed_line entries)) }
    ensures failed { TellsFailure result out.old out.new }
{
    writeln!(out, "agreed {entries}")
}

/// Prints the number with which a world refuses an event.
fn print_refusal<W: Sink>(out: &mut Watched<W>, event: u64, why: u8) -> Result<(), WriteFailed>
    ensures text { OnOk result (Prints W.contents out.old out.new (texts.refusal_line event why)) }
    ensures failed { TellsFailure result out.old out.new }
{
    writeln!(out, "{event} world refused {why}")
}

/// Returns the lines of both desks and the boards of a world.
pub fn stations_text(alloc: Global, world: &World) -> Result<String, AllocError>
    ensures { IfOk result (λ text. (w : Configuration MemDisk) → HasConfiguration world.now w →
        string_bytes text ≡ texts.station_lines w) }
{
    let mut out = Watched::new(Vec::new(alloc));
    let Ok(()) = print_stations(&mut out, world) else {
        return Err(AllocError);
    };
    match String::from_utf8(out.into_inner()) {
        Ok(text) => Ok(text),
        // Letters and digits are text.
        Err(_) => Err(AllocError),
    }
}

/// Prints the answers to all events of a schedule, how many entries are agreed, and the lines of the stations. Fails only if a
/// write fails; how much was written then isn't said.
pub fn print_whole<W: Sink>(
    out: &mut Watched<W>,
    outcomes: &[Seen],
    agreed: usize,
    stations: &str,
) -> Result<(), WriteFailed>
    ensures text { OnOk result (Prints W.contents out.old out.new
        (texts.event_lines outcomes.now ++ (texts.agreed_line agreed ++ stations.now))) }
    ensures handed_on { OnOk result (IsHandedOn W.calls out.new) }
    ensures failed { TellsFailure result out.old out.new }
{
    print_events(out, outcomes)?;
    print_agreed(out, agreed)?;
    write!(out, "{stations}")?;
    out.flush()
}

/// Prints the answers to the first events of a schedule, and the number with which the world refuses the next event.
pub fn print_refused<W: Sink>(
    out: &mut Watched<W>,
    outcomes: &[Seen],
    event: u64,
    why: u8,
) -> Result<(), WriteFailed>
    ensures text { OnOk result (Prints W.contents out.old out.new
        (texts.event_lines outcomes.now ++ texts.refusal_line event why)) }
    ensures handed_on { OnOk result (IsHandedOn W.calls out.new) }
    ensures failed { TellsFailure result out.old out.new }
{
    print_events(out, outcomes)?;
    print_refusal(out, event, why)?;
    out.flush()
}
