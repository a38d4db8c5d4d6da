//! A desk's process, from its beginning on a disk to its end.

ghost use Rattle.std.specs.Prelude.{◌≡◌, ◌∷◌, ◌++◌, [], true, false, Err, IfErr, OnOk};
ghost use Rattle.entry_log.specs.Blame.{BlamesDisk};
ghost use Rattle.agree_core.specs.Openings.{Opening};
ghost use Rattle.vote_store.specs.View.{file_view};
ghost use Rattle.streams.specs.Watched.{Prints, TellsFailure, has_failed};
ghost use Rattle.desk.specs.Desk.{disk_of, state_of};
ghost use Rattle.live.specs.declared.desk_life.LifeEnd.TheVariants.{Ended};
ghost use Rattle.live.specs.DeskLife.{BeginsOn, DeskLives};
ghost use Rattle.live.specs.DeskSights.{IsShown, IsShownFrom, desk_sight};
ghost use Rattle.live.specs.Desks as desks;
ghost use Rattle.live.specs.Desks.{DeskRuns, FitsLongest, desk_kind, innings_of, kind_of};
ghost use Rattle.live.specs.Ends.{end_told};
ghost use Rattle.live.specs.Outside.{logs_of};
ghost use Rattle.screen.specs.declared.told.Told.TheVariants.{Stands};
ghost use Rattle.station_texts.specs.Texts.{greeting};

use crate::begin::{Beginning, begin_desk};
use crate::between::Between;
use crate::desk_loop::turn;
use crate::ends::{DeskEnd, told};
use crate::hearing::own_line;
use crate::outside::Outside;
use crate::pace::Pace;
use crate::peer::Peer;
use agree_core::DeskId;
use cards::MatchSheet;
use corrections::BookOf;
use desk::{Desk, OpenRefusal};
use entry_log::SlotsOf;
use links::{Clock, Keys, Link};
use screen::{ShowsDesk, Tells, Told};
use station_texts::texts::print_greeting;
use station_texts::warned::Warned;
use std::alloc::Global;
use streams::{Sink, Watched};

/// Why a desk's process didn't begin, or ended before its turns were over.
#[derive(Clone, Copy)]
pub enum LifeEnd {
    /// The votes on its disk are refused, or the disk failed, or memory ran out.
    NotBegun(OpenRefusal),
    /// The process began, and ended so.
    Ended(DeskEnd),
}

/// Tells the scorer where the desk stands.
fn greet<S: SlotsOf, B: BookOf + Drop, W: Sink, T: Tells>(
    desk: &Desk<S, B>,
    sheet: &MatchSheet,
    out: &mut Watched<W>,
    teller: &mut T,
) -> Result<(), DeskEnd>
    ensures text { OnOk result (Prints W.contents out.old out.new
        (greeting sheet.now (innings_of desk.now) (state_of desk.now).book
        (state_of desk.now).seat.position (desks.own_line (state_of desk.now)))) }
    ensures told { T.tellings teller.new ≡ T.tellings teller.old ++ Stands ∷ [] }
    ensures only { IfErr result (λ end. end ≡ DeskEnd.Write) }
    ensures failed { TellsFailure result out.old out.new }
{
    teller.tell(Told::Stands);
    told(print_greeting(out, sheet, desk.position(), own_line(desk), desk.book()))?;
    told(out.flush())
}

/// Hands the page what is seen of a desk now, and the held lines.
fn show<S: SlotsOf, B: BookOf + Drop, K: Keys, P: ShowsDesk<B>>(
    desk: &Desk<S, B>,
    sheet: &MatchSheet,
    keys: &K,
    page: &mut P,
    now: u64,
)
    ensures { P.goes_on page.old (desk_sight sheet.now (innings_of desk.now) (state_of desk.now)) page.new }
{
    let own = own_line(desk);
    page.show(sheet, desk.book(), desk.position(), own, keys.held(), now);
}

/// Tells the scorer where the desk of this letter stands, and takes this many turns.
fn take_turns<
    S: SlotsOf,
    B: BookOf + Drop,
    L: Link,
    K: Keys,
    C: Clock,
    W: Sink,
    T: Tells,
    P: ShowsDesk<B>,
>(
    alloc: Global,
    desk: &mut Desk<S, B>,
    own: DeskId,
    sheet: &MatchSheet,
    outside: &mut Outside<L, K, C, W, T>,
    page: &mut P,
    turns: u64,
) -> Result<(), DeskEnd>
    ensures runs { DeskRuns sheet.now desk.old desk.new (logs_of L.log K.inputs C.readings W.contents T.tellings outside.old)
        (logs_of L.log K.inputs C.readings W.contents T.tellings outside.new) turns result }
    ensures shown { IsShown (kind_of sheet.now desk.old) sheet.now (innings_of desk.old) P.goes_on
        (state_of desk.old) page.old page.new }
    ensures failed { result ≡ Err DeskEnd.Write → has_failed outside.new.out ≡ true }
{
    greet(desk, sheet, &mut outside.out, &mut outside.teller)?;
    let now = outside.clock.millis();
    let mut between = Between {
        pace: Pace::new(),
        peer: Peer::new(own, now),
        warned: Warned::NOTHING,
        now,
        shown_wait: page.longest_wait(),
    };
    for number in 0..turns {
        turn(alloc, desk, sheet, outside, &mut between)?;
        show(desk, sheet, &outside.keys, page, between.now);
        between.shown_wait = page.longest_wait();
    }
    Ok(())
}

/// Returns how the process ended after its last flush: a failed flush is reported, unless the disk failed.
fn end_told(end: Result<(), DeskEnd>, flushed: Result<(), DeskEnd>) -> Result<(), DeskEnd>
    ensures { result ≡ end_told end flushed }
{
    match (end, flushed) {
        (Err(DeskEnd::Device), _) => Err(DeskEnd::Device),
        (_, Err(fault)) => Err(fault),
        (end, Ok(())) => end,
    }
}

/// Runs the process of the desk of this letter for this many turns: it tells its scorer where the desk stands, takes the
/// scorer's lines, tells their outcomes, sends votes and replies, asks for what it lacks, and reminds the scorer by its clock
/// that the other has written, that the other desk isn't heard, or that it is heard again. However it ends, it is a run by the
/// definitions of a desk: its datagrams are exactly those that passed at the link, its lines those that were typed, its times
/// those that its clock showed, its texts those that were written, its values those that were told, even if a row of theirs
/// can't be written. The page is handed, after each turn, exactly what is seen of the desk then.
pub fn run_desk<
    S: SlotsOf,
    B: BookOf + Drop,
    L: Link,
    K: Keys,
    C: Clock,
    W: Sink,
    T: Tells,
    P: ShowsDesk<B>,
>(
    alloc: Global,
    desk: &mut Desk<S, B>,
    own: DeskId,
    sheet: &MatchSheet,
    outside: &mut Outside<L, K, C, W, T>,
    page: &mut P,
    turns: u64,
) -> Result<(), DeskEnd>
    ensures runs { DeskRuns sheet.now desk.old desk.new (logs_of L.log K.inputs C.readings W.contents T.tellings outside.old)
        (logs_of L.log K.inputs C.readings W.contents T.tellings outside.new) turns result }
    ensures shown { IsShown (kind_of sheet.now desk.old) sheet.now (innings_of desk.old) P.goes_on
        (state_of desk.old) page.old page.new }
    // `Device` is answered exactly if the disk failed in this run.
    ensures blame { (state_of desk.old).failed ≡ false →
        BlamesDisk DeskEnd.Device (FitsLongest S.room (S.Disk.cap (disk_of desk.old))) result
        (S.Disk.faults (disk_of desk.old)) (S.Disk.faults (disk_of desk.new)) }
    ensures failed { result ≡ Err DeskEnd.Write → has_failed outside.new.out ≡ true }
{
    let end = take_turns(alloc, desk, own, sheet, outside, page, turns);
    end_told(end, told(outside.out.flush()))
}

/// Runs a desk's whole process: begins on its disk (with a new file if the disk has no byte), with an empty book of the sheet's
/// match, and runs for this many turns. However it ends, it is a process by the definitions: it began as `begin_desk` says, and
/// ran as `run_desk` says, on exactly that desk. If it didn't begin, nothing passed at the link, nothing was typed, the clock
/// wasn't read, and nothing was told or shown.
pub fn keep_desk<
    S: SlotsOf + Drop,
    B: BookOf + Drop,
    L: Link,
    K: Keys,
    C: Clock,
    W: Sink,
    T: Tells,
    P: ShowsDesk<B>,
>(
    alloc: Global,
    beginning: Beginning<S::Disk, B>,
    sheet: &MatchSheet,
    outside: &mut Outside<L, K, C, W, T>,
    page: &mut P,
    turns: u64,
) -> Result<(), LifeEnd>
where
    S::Disk: Drop,
    requires empty { B.content beginning.book ≡ [] }
    ensures lives { DeskLives (file_view S.contents S.Disk.seen S.Disk.images beginning.desk sheet.now.game) S.Disk.seen
        (record { faults = S.Disk.faults; FitsLongest = FitsLongest S.room (S.Disk.cap beginning.disk) })
        sheet.now (B.innings_a_side beginning.book) beginning.desk beginning.disk
        (logs_of L.log K.inputs C.readings W.contents T.tellings outside.old)
        (logs_of L.log K.inputs C.readings W.contents T.tellings outside.new) turns result }
    ensures shown { (opening : Opening S.Disk)
        × BeginsOn (file_view S.contents S.Disk.seen S.Disk.images beginning.desk sheet.now.game) S.Disk.seen
        (B.innings_a_side beginning.book) beginning.desk beginning.disk opening
        × IsShownFrom (desk_kind sheet.now (file_view S.contents S.Disk.seen S.Disk.images beginning.desk sheet.now.game)
        (record { faults = S.Disk.faults; FitsLongest = FitsLongest S.room (S.Disk.cap beginning.disk) }) sheet.now.game
        (B.innings_a_side beginning.book)) sheet.now (B.innings_a_side beginning.book) P.goes_on opening page.old page.new }
    ensures failed { result ≡ Err (Ended DeskEnd.Write) → has_failed outside.new.out ≡ true }
{
    let Beginning { desk, disk, book } = beginning;
    match begin_desk::<S, B>(alloc, disk, desk, sheet.game(), book) {
        Ok(mut begun) => match run_desk(alloc, &mut begun, desk, sheet, outside, page, turns) {
            Ok(()) => Ok(()),
            Err(end) => Err(LifeEnd::Ended(end)),
        },
        Err((why, _disk)) => Err(LifeEnd::NotBegun(why)),
    }
}
