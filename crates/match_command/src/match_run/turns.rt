//! Two desks and a board that take turns.

ghost use Rattle.std.specs.Prelude.{◌≤◌, ◌<◌, ◌≡◌, ◌≢◌, ◌⊎◌, ℕ, List, [], length, true, Err, IfErr, IfOk, IsOk, OnOk};
ghost use Rattle.notation.specs.Written.{IsEntry};
ghost use Rattle.entry_log.specs.Format.{room};
ghost use Rattle.entry_log.specs.Slots.{StaysOrBegins};
ghost use Rattle.entry_log.specs.Version2.{version_2};
ghost use Rattle.corrections.specs.CleanList.{history_of};
ghost use Rattle.desk.specs.Desk.{IsDeskOf, SameOwner, disk_of, game_of};
ghost use Rattle.board.specs.Board.{SameMatch};
ghost use Rattle.board.specs.Board as boards;
ghost use Rattle.cards.specs.Board.{board as board_text};
ghost use Rattle.streams.specs.Watched.{IsHandedOn, Prints, TellsFailure};
ghost use Rattle.links.specs.Passed.{Passed};
ghost use Rattle.match_command.specs.MatchRun.{IsQuiet, Leaves, Stays};
ghost use Rattle.books.specs.Taking.{answer_to, taking, with_taken};
ghost use Rattle.match_command.specs.inner.Online.{IsOnline, StaysOnline};
ghost use Rattle.match_command.specs.inner.Turns as turns;
ghost use Rattle.match_command.specs.inner.Turns.{AreCalm, AreLevel, InTurn, IsCalm, IsLevel, KeepsDisk, KeepsOnline, KeepsTurn, LineLeaves, PenLeaves, VotesFor, WhyNotAgreed, board_at, book_at, innings_at};

use crate::match_run::fault::MatchFault;
use agree_core::{Asker, DeskId};
use board::Board;
use books::{Refusal, Rejected};
use cards::MatchSheet;
use corrections::{BookOf, CheckedBook};
use desk::{Desk, OpenRefusal};
use entry_log::{Disk, Slots, SlotsOf};
use links::{Link, MOST_TAKEN, ROOM, SharedLink, Taken};
use live::hearing::{give, tick};
use live::{board_calls, end_at};
use notation::{Entry, read_line};
use setup::TURNS;
use std::alloc::{AllocError, Global};
use streams::{Sink, Watched, WriteFailed};

/// How many milliseconds the stations of a `match` wait for a datagram. Over loopback it is there at once, or was dropped.
const MATCH_DATAGRAM_WAIT: u64 = 10;

/// Returns the fault of a run that can't make a desk on an empty disk.
fn creation_fault(why: OpenRefusal) -> MatchFault
    ensures { result ≡ turns.creation_fault why }
{
    match why {
        OpenRefusal::Votes(vote_store::Refusal::NoMemory) => MatchFault::NoMemory,
        OpenRefusal::Votes(_) | OpenRefusal::BadVotes { .. } => MatchFault::Device,
    }
}

/// Makes a desk with a new file on an empty disk, and with an empty book.
fn new_desk<D: Disk + Drop>(
    alloc: Global,
    game: u64,
    disk: D,
    desk: DeskId,
    book: CheckedBook,
) -> Result<Desk<Slots<D>, CheckedBook>, (MatchFault, D)>
    requires disk { length (D.seen disk) ≡ 0 }
    requires book { book.entries ≡ [] }
    ensures owner { IfOk result (IsDeskOf desk game book.innings_a_side) }
    ensures turn { IfOk result (λ made. InTurn [] made) }
    ensures empty { IfOk result (λ made. book_at made ≡ []) }
    ensures calm { IsQuiet D.faults D.cap disk → IfOk result (λ made. IsCalm made) }
    ensures why { IfErr result (λ refused.
        (refused.0 ≡ MatchFault.NoMemory) ⊎ (refused.0 ≡ MatchFault.Device)) }
    ensures left { IfErr result (λ refused.
        StaysOrBegins D.seen D.images (room version_2 0) disk refused.1) }
    // If memory runs out, the disk is as it was.
    ensures stays { IfErr result (λ refused.
        refused.0 ≡ MatchFault.NoMemory → Stays D.seen D.images disk refused.1) }
    ensures blame { IsQuiet D.faults D.cap disk → IfErr result (λ refused. refused.0 ≢ MatchFault.Device) }
{
    match Desk::create(alloc, disk, desk, game, book) {
        Ok(desk) => Ok(desk),
        Err((why, disk)) => Err((creation_fault(why), disk)),
    }
}

/// Returns the fault of a run whose desk refuses to pen the entry of a line. A desk that waits, or that has used up its rounds
/// or slots, can't agree the place.
fn pen_fault(number: u64, place: u32, why: desk::Refusal) -> MatchFault
    ensures { result ≡ turns.pen_fault number place why }
{
    match why {
        desk::Refusal::PlacesFull => MatchFault::Line {
            number,
            why: Rejected::Refused(Refusal::PlacesFull),
        },
        desk::Refusal::Book(why) => MatchFault::Line {
            number,
            why: Rejected::Refused(Refusal::Book(why)),
        },
        desk::Refusal::Device | desk::Refusal::Failed => MatchFault::Device,
        desk::Refusal::Waiting | desk::Refusal::RoundsFull | desk::Refusal::SlotsFull => {
            MatchFault::NotAgreed { place }
        }
    }
}

/// Has a desk pen the entry of a line.
fn pen<S: SlotsOf>(
    desk: &mut Desk<S, CheckedBook>,
    number: u64,
    entry: &Entry,
) -> Result<(), MatchFault>
    requires { IsEntry entry.now }
    ensures owner { SameOwner desk.old desk.new }
    ensures voted { IsLevel desk.old → OnOk result (VotesFor entry.now desk.old desk.new) }
    ensures why { IsLevel desk.old →
        IfErr result (WhyNotAgreed (taking (innings_at desk.old) (book_at desk.old) entry.now)
        (book_at desk.old) number) }
    ensures left { IsLevel desk.old → IfErr result (λ fault. PenLeaves entry.now fault desk.old desk.new) }
    ensures calm { IsCalm desk.old → result ≢ Err MatchFault.Device }
{
    let place = desk.book().len();
    match desk.pen(entry) {
        Ok(_) => Ok(()),
        Err(why) => Err(pen_fault(number, place, why)),
    }
}

/// Has a desk take the bytes of a datagram, and send its reply.
fn reply<S: SlotsOf, L: Link>(
    desk: &mut Desk<S, CheckedBook>,
    bytes: &[u8],
    link: &mut L,
) -> Result<(), MatchFault>
    ensures disk { KeepsDisk desk.old desk.new }
    ensures kept { OnOk result (KeepsTurn desk.old desk.new) }
    ensures online { OnOk result ((entries : List Entry) → InTurn entries desk.old →
        StaysOnline (game_of desk.old) entries (L.log link.old) (L.log link.new)) }
    ensures only { IfErr result (λ fault. fault ≡ MatchFault.Device) }
    ensures calm { IsCalm desk.old → result ≢ Err MatchFault.Device }
{
    let what = give(desk, bytes, link);
    match end_at(what) {
        Ok(()) => Ok(()),
        Err(_) => Err(MatchFault::Device),
    }
}

/// Has a desk take the next datagram, and returns whether another may come.
fn take_next<S: SlotsOf, L: Link>(
    desk: &mut Desk<S, CheckedBook>,
    link: &mut L,
) -> Result<bool, MatchFault>
    ensures disk { KeepsDisk desk.old desk.new }
    ensures kept { OnOk result (KeepsTurn desk.old desk.new) }
    ensures online { OnOk result ((entries : List Entry) → InTurn entries desk.old →
        StaysOnline (game_of desk.old) entries (L.log link.old) (L.log link.new)) }
    ensures only { IfErr result (λ fault. fault ≡ MatchFault.Device) }
    ensures calm { IsCalm desk.old → result ≢ Err MatchFault.Device }
{
    let mut buffer = [0; ROOM];
    match link.take(&mut buffer, MATCH_DATAGRAM_WAIT) {
        Taken::Datagram(count) => match reply(desk, &buffer[..count], link) {
            Ok(()) => Ok(true),
            Err(fault) => Err(fault),
        },
        Taken::Nothing => Ok(false),
        Taken::Lost | Taken::Unopened => Ok(true),
    }
}

/// A desk's turn: it sends its unasked messages, and takes the datagrams that came.
fn desk_turn<S: SlotsOf, L: SharedLink>(
    desk: &mut Desk<S, CheckedBook>,
    at: Asker,
    link: &mut L,
) -> Result<(), MatchFault>
    ensures disk { KeepsDisk desk.old desk.new }
    ensures kept { OnOk result (KeepsTurn desk.old desk.new) }
    ensures online { OnOk result ((entries : List Entry) → InTurn entries desk.old →
        StaysOnline (game_of desk.old) entries (L.log link.old) (L.log link.new)) }
    ensures only { IfErr result (λ fault. fault ≡ MatchFault.Device) }
    ensures calm { IsCalm desk.old → result ≢ Err MatchFault.Device }
{
    link.turn_to(at);
    tick(desk, link);
    for _ in 0..MOST_TAKEN {
        if !take_next(desk, link)? {
            break;
        }
    }
    Ok(())
}

/// Has the board take the next datagram, and returns whether another may come. Votes that make no legal book are ignored.
fn board_next<L: Link>(board: &mut Board<CheckedBook>, link: &mut L) -> bool
    ensures same { SameMatch (λ book. book.innings_a_side) board.old board.new }
    ensures online { (start : List Passed) (entries : List Entry) →
        IsOnline (boards.game_of board.old) start entries (L.log link.old) (board_at board.old) →
        IsOnline (boards.game_of board.old) start entries (L.log link.new) (board_at board.new) }
{
    let mut buffer = [0; ROOM];
    match link.take(&mut buffer, MATCH_DATAGRAM_WAIT) {
        Taken::Datagram(count) => {
            let _ = board.receive(&buffer[..count]);
            true
        }
        Taken::Nothing => false,
        Taken::Lost | Taken::Unopened => true,
    }
}

/// The board's turn: it asks, and takes the datagrams that came.
fn board_turn<L: SharedLink>(board: &mut Board<CheckedBook>, link: &mut L)
    ensures same { SameMatch (λ book. book.innings_a_side) board.old board.new }
    ensures online { (start : List Passed) (entries : List Entry) →
        IsOnline (boards.game_of board.old) start entries (L.log link.old) (board_at board.old) →
        IsOnline (boards.game_of board.old) start entries (L.log link.new) (board_at board.new) }
{
    link.turn_to(Asker::Board);
    board_calls::tick(board, link);
    for _ in 0..MOST_TAKEN {
        if !board_next(board, link) {
            break;
        }
    }
}

/// Two desks and a board.
#[derive(Drop)]
pub struct Stations<S: SlotsOf> {
    a: Desk<S, CheckedBook>,
    b: Desk<S, CheckedBook>,
    board: Board<CheckedBook>,
}

/// Makes two empty books for the desks, and one for the board.
fn empty_books(
    alloc: Global,
    innings: u32,
) -> Result<(CheckedBook, CheckedBook, CheckedBook), AllocError>
    requires { (1 ≤ innings) × (innings ≤ 2) }
    ensures a { IfOk result (λ books. (books.0.entries ≡ []) × (books.0.innings_a_side ≡ innings)) }
    ensures b { IfOk result (λ books. (books.1.entries ≡ []) × (books.1.innings_a_side ≡ innings)) }
    ensures board { IfOk result (λ books. (books.2.entries ≡ []) × (books.2.innings_a_side ≡ innings)) }
{
    let a = CheckedBook::new(alloc, innings)?;
    let b = CheckedBook::new(alloc, innings)?;
    let board = CheckedBook::new(alloc, innings)?;
    Ok((a, b, board))
}

/// Makes both desks with new files on empty disks, and an empty board. A refusal hands both disks back.
pub fn new_stations<D: Disk + Drop>(
    alloc: Global,
    sheet: &MatchSheet,
    a: D,
    b: D,
) -> Result<Stations<Slots<D>>, (MatchFault, D, D)>
    requires a { length (D.seen a) ≡ 0 }
    requires b { length (D.seen b) ≡ 0 }
    ensures level { IfOk result (λ made. AreLevel made.a made.b made.board) }
    ensures empty { IfOk result (λ made. book_at made.a ≡ []) }
    ensures game { IfOk result (λ made. game_of made.a ≡ sheet.now.game) }
    ensures innings { IfOk result (λ made. innings_at made.a ≡ sheet.now.innings) }
    ensures online { IfOk result (λ made. (log : List Passed) →
        IsOnline (game_of made.a) log [] log (board_at made.board)) }
    ensures why { IfErr result (λ refused.
        (refused.0 ≡ MatchFault.NoMemory) ⊎ (refused.0 ≡ MatchFault.Device)) }
    ensures left { IfErr result (λ refused. (input : List ℕ) →
        Leaves D.seen D.images sheet.now input refused.0 a b refused.1 refused.2) }
    ensures calm { IsQuiet D.faults D.cap a → IsQuiet D.faults D.cap b →
        IfOk result (λ made. IsCalm made.a × IsCalm made.b) }
    ensures blame { IsQuiet D.faults D.cap a → IsQuiet D.faults D.cap b →
        IfErr result (λ refused. refused.0 ≢ MatchFault.Device) }
{
    let (book_a, book_b, book) = match empty_books(alloc, sheet.innings()) {
        Ok(books) => books,
        Err(why) => return Err((MatchFault::from(why), a, b)),
    };
    let a = match new_desk(alloc, sheet.game(), a, DeskId::A, book_a) {
        Ok(desk) => desk,
        Err((why, a)) => return Err((why, a, b)),
    };
    let b = match new_desk(alloc, sheet.game(), b, DeskId::B, book_b) {
        Ok(desk) => desk,
        Err((why, b)) => return Err((why, a.into_disk(), b)),
    };
    let board = Board::new(sheet.game(), book);
    Ok(Stations { a, b, board })
}

impl<S: SlotsOf> Stations<S> {
    /// Whether all three books have more than this many entries.
    fn have_more(&self, len: u32) -> bool
        ensures a { result ≡ true → len < length (book_at self.now.a) }
        ensures b { result ≡ true → len < length (book_at self.now.b) }
        ensures board { result ≡ true → len < length (boards.book_of self.now.board).entries }
    {
        self.a.book().len() > len && self.b.book().len() > len && self.board.book().len() > len
    }

    /// Has the stations take turns until all three books have the entry of this place.
    fn agree<L: SharedLink>(&mut self, place: u32, link: &mut L) -> Result<(), MatchFault>
        ensures disk_a { KeepsDisk self.old.a self.new.a }
        ensures disk_b { KeepsDisk self.old.b self.new.b }
        ensures online { OnOk result (KeepsOnline self.old.a self.old.b self.old.board self.new.board
            (L.log link.old) (L.log link.new)) }
        ensures kept_a { OnOk result (KeepsTurn self.old.a self.new.a) }
        ensures kept_b { OnOk result (KeepsTurn self.old.b self.new.b) }
        ensures board { OnOk result (SameMatch (λ book. book.innings_a_side) self.old.board self.new.board) }
        ensures at_a { OnOk result (place < length (book_at self.new.a)) }
        ensures at_b { OnOk result (place < length (book_at self.new.b)) }
        ensures at_board { OnOk result (place < length (boards.book_of self.new.board).entries) }
        ensures only { IfErr result (λ fault.
            (fault ≡ MatchFault.Device) ⊎ (fault ≡ MatchFault.NotAgreed place)) }
        ensures calm { AreCalm self.old.a self.old.b → result ≢ Err MatchFault.Device }
    {
        for _ in 0..TURNS {
            desk_turn(&mut self.a, Asker::A, link)?;
            desk_turn(&mut self.b, Asker::B, link)?;
            board_turn(&mut self.board, link);
            if self.have_more(place) {
                return Ok(());
            }
        }
        Err(MatchFault::NotAgreed { place })
    }

    /// Has both desks pen the entry of a line, and all three stations agree it.
    pub fn take<L: SharedLink>(
        &mut self,
        number: u64,
        line: &[u8],
        link: &mut L,
    ) -> Result<(), MatchFault>
        requires level { AreLevel self.old.a self.old.b self.old.board }
        ensures level { OnOk result (AreLevel self.new.a self.new.b self.new.board) }
        ensures taken { OnOk result
            (IsOk (answer_to (innings_at self.old.a) (book_at self.old.a) line.now)) }
        ensures book { OnOk result (book_at self.new.a ≡
            with_taken (answer_to (innings_at self.old.a) (book_at self.old.a) line.now) (book_at self.old.a)) }
        ensures owner_a { SameOwner self.old.a self.new.a }
        ensures owner_b { SameOwner self.old.b self.new.b }
        ensures online { OnOk result ((start : List Passed) →
            IsOnline (game_of self.old.a) start (book_at self.old.a) (L.log link.old) (board_at self.old.board) →
            IsOnline (game_of self.old.a) start (book_at self.new.a) (L.log link.new) (board_at self.new.board)) }
        ensures left { IfErr result (λ fault. LineLeaves (book_at self.old.a)
            (with_taken (answer_to (innings_at self.old.a) (book_at self.old.a) line.now) (book_at self.old.a))
            fault self.new.a self.new.b) }
        ensures why { IfErr result
            (WhyNotAgreed (answer_to (innings_at self.old.a) (book_at self.old.a) line.now)
            (book_at self.old.a) number) }
        ensures calm_still { OnOk result (AreCalm self.old.a self.old.b → AreCalm self.new.a self.new.b) }
        ensures calm { AreCalm self.old.a self.old.b → result ≢ Err MatchFault.Device }
    {
        let entry = match read_line(line) {
            Ok(entry) => entry,
            Err(fault) => {
                let why = Rejected::Fault(fault);
                return Err(MatchFault::Line { number, why });
            }
        };
        let place = self.a.book().len();
        pen(&mut self.a, number, &entry)?;
        pen(&mut self.b, number, &entry)?;
        self.agree(place, link)
    }

    /// Prints the six lines of the board.
    pub fn print_board<W: Sink>(
        &self,
        sheet: &MatchSheet,
        out: &mut Watched<W>,
    ) -> Result<(), WriteFailed>
        ensures text { OnOk result (Prints W.contents out.old out.new
            (board_text sheet.now (boards.book_of self.now.board).innings_a_side
            (history_of (boards.book_of self.now.board).entries))) }
        ensures handed_on { OnOk result (IsHandedOn W.calls out.new) }
        ensures failed { TellsFailure result out.old out.new }
    {
        self.board.lines(sheet, out)?;
        out.flush()
    }

    /// Returns the disks of desks A and B.
    pub fn into_disks(self) -> (S::Disk, S::Disk)
        ensures a { result.0 ≡ disk_of self.a }
        ensures b { result.1 ≡ disk_of self.b }
    {
        (self.a.into_disk(), self.b.into_disk())
    }
}
