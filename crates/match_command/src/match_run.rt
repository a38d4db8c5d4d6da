//! `ground match`: two desks and a board agree the lines of a book.

ghost use Rattle.std.specs.Prelude.{◌≡◌, ◌≢◌, ◌≤◌, ◌<◌, ◌⊎◌, List, [], length, Err, IfErr, IfOk, OnOk};
ghost use Rattle.corrections.specs.CleanList.{history_of};
ghost use Rattle.cards.specs.Board.{board as board_text};
ghost use Rattle.streams.specs.Watched.{IsHandedOn, MeetsFailure, Prints};
ghost use Rattle.desk.specs.Desk.{SameOwner, game_of};
ghost use Rattle.board.specs.Board.{book_of};
ghost use Rattle.vote_store.specs.Migrated.{answer_of};
ghost use Rattle.books.specs.CardBook.{IsBookOfLines};
ghost use Rattle.links.specs.Passed.{Passed};
ghost use Rattle.match_command.specs.MatchRun.{AgreesLines, IsQuiet, Leaves, Stays, WhyNoMatch, left_at_a, left_at_b};
ghost use Rattle.match_command.specs.inner.Online.{IsOnline};
ghost use Rattle.match_command.specs.inner.Turns.{AreCalm, AreLevel, LinesLeave, board_at, book_at, innings_at};

mod fault;
mod files;
mod turns;

use cards::MatchSheet;
use entry_log::{Disk, SlotsOf};
pub use fault::MatchFault;
use files::MatchFiles;
use links::SharedLink;
use machine::Sockets;
use notation::Lines;
use setup::{Output, StopFault, Stopped, VotesDisk, bytes_at, output, sheet_at};
use std::alloc::Global;
use streams::{LONGEST_INPUT, Sink, Watched};
use turns::{Stations, new_stations};

/// Has the stations agree the lines of an input, one after the other.
fn take_lines<S: SlotsOf, L: SharedLink>(
    stations: &mut Stations<S>,
    input: &[u8],
    link: &mut L,
) -> Result<(), MatchFault>
    requires short { length input.now ≤ LONGEST_INPUT }
    requires level { AreLevel stations.old.a stations.old.b stations.old.board }
    requires empty { book_at stations.old.a ≡ [] }
    ensures level { OnOk result (AreLevel stations.new.a stations.new.b stations.new.board) }
    ensures book { OnOk result
        (IsBookOfLines (innings_at stations.old.a) input.now (book_at stations.new.a)) }
    ensures owner_a { SameOwner stations.old.a stations.new.a }
    ensures owner_b { SameOwner stations.old.b stations.new.b }
    ensures online { OnOk result ((start : List Passed) →
        IsOnline (game_of stations.old.a) start [] (L.log link.old) (board_at stations.old.board) →
        IsOnline (game_of stations.old.a) start (book_at stations.new.a) (L.log link.new)
        (board_at stations.new.board)) }
    ensures left { IfErr result (λ fault.
        LinesLeave (innings_at stations.old.a) input.now fault stations.new.a stations.new.b) }
    ensures why { IfErr result (WhyNoMatch (innings_at stations.old.a) input.now [] []) }
    ensures no_write { result ≢ Err MatchFault.Write }
    ensures calm { AreCalm stations.old.a stations.old.b → result ≢ Err MatchFault.Device }
{
    let mut lines = Lines::new(input);
    let mut number = 0;
    while let Some(line) = lines.next() {
        number += 1;
        stations.take(number, line, link)?;
    }
    Ok(())
}

/// Refuses a disk that has a file. A disk that fails is a fault too.
fn expect_empty<D: Disk>(disk: &mut D) -> Result<(), MatchFault>
    ensures empty { OnOk result (length (D.seen disk.old) ≡ 0) }
    ensures stays { Stays D.seen D.images disk.old disk.new }
    ensures calm { IsQuiet D.faults D.cap disk.old →
        IsQuiet D.faults D.cap disk.new × (result ≢ Err MatchFault.Device) }
    ensures why { IfErr result (λ fault. (fault ≡ MatchFault.Device)
        ⊎ ((fault ≡ MatchFault.NotEmpty) × (0 < length (D.seen disk.old)))) }
{
    match disk.len() {
        Ok(0) => Ok(()),
        Ok(_) => Err(MatchFault::NotEmpty),
        Err(_) => Err(MatchFault::Device),
    }
}

/// Refuses both disks if either has a file.
fn expect_both_empty<D: Disk>(a: &mut D, b: &mut D) -> Result<(), MatchFault>
    ensures empty { OnOk result ((length (D.seen a.old) ≡ 0) × (length (D.seen b.old) ≡ 0)) }
    ensures stays_a { Stays D.seen D.images a.old a.new }
    ensures stays_b { Stays D.seen D.images b.old b.new }
    ensures calm { IsQuiet D.faults D.cap a.old → IsQuiet D.faults D.cap b.old →
        IsQuiet D.faults D.cap a.new × IsQuiet D.faults D.cap b.new × (result ≢ Err MatchFault.Device) }
    ensures why { IfErr result (λ fault. (fault ≡ MatchFault.Device)
        ⊎ ((fault ≡ MatchFault.NotEmpty)
        × ((0 < length (D.seen a.old)) ⊎ (0 < length (D.seen b.old))))) }
{
    expect_empty(a)?;
    expect_empty(b)
}

/// Has the stations agree the lines of an input, and prints the board's six lines.
fn play<S: SlotsOf, L: SharedLink, W: Sink>(
    stations: &mut Stations<S>,
    sheet: &MatchSheet,
    input: &[u8],
    link: &mut L,
    writer: &mut Watched<W>,
) -> Result<(), MatchFault>
    requires short { length input.now ≤ LONGEST_INPUT }
    requires level { AreLevel stations.old.a stations.old.b stations.old.board }
    requires empty { book_at stations.old.a ≡ [] }
    ensures level { OnOk result (AreLevel stations.new.a stations.new.b stations.new.board) }
    ensures book { OnOk result
        (IsBookOfLines (innings_at stations.old.a) input.now (book_at stations.new.a)) }
    ensures owner_a { SameOwner stations.old.a stations.new.a }
    ensures owner_b { SameOwner stations.old.b stations.new.b }
    ensures online { OnOk result ((start : List Passed) →
        IsOnline (game_of stations.old.a) start [] (L.log link.old) (board_at stations.old.board) →
        IsOnline (game_of stations.old.a) start (book_at stations.new.a) (L.log link.new)
        (board_at stations.new.board)) }
    ensures left { IfErr result (λ fault.
        LinesLeave (innings_at stations.old.a) input.now fault stations.new.a stations.new.b) }
    ensures written { OnOk result (Prints W.contents writer.old writer.new
        (board_text sheet.now (innings_at stations.old.a)
        (history_of (book_of stations.new.board).entries))) }
    ensures why { IfErr result (WhyNoMatch (innings_at stations.old.a) input.now [] []) }
    ensures calm { AreCalm stations.old.a stations.old.b → result ≢ Err MatchFault.Device }
    ensures handed_on { OnOk result (IsHandedOn W.calls writer.new) }
    ensures write { result ≡ Err MatchFault.Write → MeetsFailure writer.old writer.new }
    ensures unwritten { IfErr result (λ fault. fault ≢ MatchFault.Write → writer.new ≡ writer.old) }
{
    take_lines(stations, input, link)?;
    match stations.print_board(sheet, writer) {
        Ok(()) => Ok(()),
        Err(_) => Err(MatchFault::Write),
    }
}

/// `ground match`: two desks with new files on these disks, and a board. Both desks pen each line, and the next line follows
/// when all three books have it; then the six lines of the board are written. The stations take turns, A, B and the board: in
/// its turn a station sends its unasked messages to the other two, and takes up to eight datagrams, until none comes in time.
/// The run ends at a line that is refused, and at a place that isn't agreed in fifty turns of each station. A disk that has a
/// file is refused before either is written, so that both stay as they were. Both disks are handed back. At `Ok`, whatever the
/// link loses, changes or makes up, both disks hold exactly the book of the lines, which a power loss doesn't take away; and if
/// the link gives only datagrams that were sent, lost, repeated or in another order, the board has that book too.
pub fn run_match<D: Disk + Drop, L: SharedLink, W: Sink>(
    alloc: Global,
    sheet: &MatchSheet,
    input: &[u8],
    mut a: D,
    mut b: D,
    link: &mut L,
    writer: &mut Watched<W>,
) -> Result<(D, D), (MatchFault, D, D)>
    requires { length input.now ≤ LONGEST_INPUT }
    ensures agreed { IfOk result (λ disks.
        AgreesLines W.contents writer.old writer.new D.seen D.images sheet.now input.now
        (L.log link.old) (L.log link.new) disks.0 disks.1) }
    ensures only_empty { OnOk result ((length (D.seen a) ≡ 0) × (length (D.seen b) ≡ 0)) }
    ensures why { IfErr (answer_of result)
        (WhyNoMatch sheet.now.innings input.now (D.seen a) (D.seen b)) }
    // What both disks hold after each fault.
    ensures left { IfErr (answer_of result) (λ fault. Leaves D.seen D.images sheet.now input.now fault a b
        (left_at_a result) (left_at_b result)) }
    // If a disk has a file, both stay as they were, and so the next run meets the same fault.
    ensures kept { (0 < length (D.seen a)) ⊎ (0 < length (D.seen b)) →
        Stays D.seen D.images a (left_at_a result) × Stays D.seen D.images b (left_at_b result) }
    // If no fault is due at either disk, and both have room, no disk fault is met.
    ensures calm { IsQuiet D.faults D.cap a → IsQuiet D.faults D.cap b →
        answer_of result ≢ Err MatchFault.Device }
    ensures handed_on { OnOk result (IsHandedOn W.calls writer.new) }
    ensures write { answer_of result ≡ Err MatchFault.Write → MeetsFailure writer.old writer.new }
    // With any other fault nothing was written.
    ensures unwritten { IfErr (answer_of result) (λ fault.
        fault ≢ MatchFault.Write → writer.new ≡ writer.old) }
{
    if let Err(why) = expect_both_empty(&mut a, &mut b) {
        return Err((why, a, b));
    }
    let mut stations = new_stations(alloc, sheet, a, b)?;
    let answer = play(&mut stations, sheet, input, link, writer);
    let (a, b) = stations.into_disks();
    match answer {
        Ok(()) => Ok((a, b)),
        Err(why) => Err((why, a, b)),
    }
}

/// Closes a votes file.
fn close_disk(_disk: VotesDisk<'_>) {}

/// Has two desks on these files agree the lines of a book.
fn play_match<'a>(
    rt: &HostRuntime,
    sheet: &MatchSheet,
    lines: &[u8],
    files: &MatchFiles<'a>,
    sockets: &mut Sockets,
    writer: &mut Output<'_>,
) -> Result<(), Stopped<'a>>
    requires { length lines.now ≤ LONGEST_INPUT }
{
    let a = files.disk_a(rt)?;
    let b = files.disk_b(rt)?;
    match run_match(rt.alloc(), sheet, lines, a, b, sockets, writer) {
        Ok((a, b)) => {
            close_disk(a);
            close_disk(b);
            Ok(())
        }
        Err((fault, a, b)) => {
            close_disk(a);
            close_disk(b);
            Err(Stopped::at(files.folder(), StopFault::from(fault)))
        }
    }
}

/// Runs `match` over the lines of a book, with votes files in a folder. If it ends before its first vote, it leaves no file
/// that wasn't there before.
#[inline(never)]
pub fn start_match<'a>(
    rt: &HostRuntime,
    sheet: &'a str,
    book: &'a str,
    folder: &'a str,
    drop: u16,
) -> Result<bool, Stopped<'a>> {
    let sheet = sheet_at(rt, sheet)?;
    let lines = bytes_at(rt, book)?;
    let mut writer = output(rt)?;
    let mut sockets = match Sockets::new(rt, drop) {
        Ok(sockets) => sockets,
        Err(_) => return Err(Stopped::at(folder, StopFault::Write)),
    };
    let files = MatchFiles::in_folder(rt, folder)?;
    match play_match(
        rt,
        &sheet,
        lines.as_slice(),
        &files,
        &mut sockets,
        &mut writer,
    ) {
        Ok(()) => Ok(false),
        Err(stopped) => {
            files.take_back(rt);
            Err(stopped)
        }
    }
}
