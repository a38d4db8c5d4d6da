//! `ground board`: a scoreboard.

ghost use Rattle.std.specs.Prelude.{◌≡◌, [], IfOk, IsOk, false, option_copied};
ghost use Rattle.board_command.specs.Keeping.{IsFresh};
ghost use Rattle.board_command.specs.Lives.{key_of, sheet_path_of, traces_in};

use crate::files::{Displays, Files, Kept};
use crate::hearing::{Hearings, Silence};
use crate::life::{BoardLife, Sealed, keep_on};
use crate::notes::Notes;
use crate::page::Page;
use agree_core::Asker;
use board::{Board, Witness};
use cards::MatchSheet;
use corrections::CheckedBook;
use links::Clock;
use live::Scoreboard;
use machine::{MonotonicClock, Pieces, StandardStream};
use machine_files::{Cause, Name, TextFile, WholeText, WriteFault};
use setup::{Sealing, StopFault, Stopped, sheet_file_at};
use station_screens::{Errors, Shared, errors_at, output_at};
use station_table::BoardSetting;
use std::cell::RefCell;
use std::rt::Stderr;
use streams::{Watched, WriteFailed};

/// Where a board tells which datagrams it can't take, and which file it can't write.
pub type Told<'s, 'a> = Shared<'s, Pieces<StandardStream<'a, Stderr>>>;

/// A board's files on this machine.
type BoardFiles<'s, 'a> = Files<'a, WholeText<TextFile<'a>>, Told<'s, 'a>, CheckedBook>;

/// The paths of a board's files, and of the files that they may not replace.
#[derive(Clone, Copy)]
struct Paths<'a> {
    sheet: &'a str,
    key: Option<&'a str>,
    text: Option<&'a str>,
    state: Option<&'a str>,
    script: Option<&'a str>,
}

impl<'a> Paths<'a> {
    /// Returns the file of this path, if there is one. Refuses a path if the file or the one beside it may not be written.
    fn file_at(
        &self,
        rt: &'a HostRuntime,
        path: Option<&'a str>,
    ) -> Result<Option<TextFile<'a>>, Stopped<'a>> {
        let Some(path) = path else {
            return Ok(None);
        };
        let made = TextFile::new(rt, path, self.sheet, self.key);
        let file = made.map_err(|why| Stopped::at(path, StopFault::from(why)))?;
        match file.expect_room() {
            Ok(()) => Ok(Some(file)),
            Err(why) => Err(Stopped::at(path, StopFault::File(why))),
        }
    }

    /// Returns a board's files, as far as they are named. Refuses two that are one file.
    fn files<'s>(
        &self,
        rt: &'a HostRuntime,
        errors: &'s RefCell<Errors<'a>>,
    ) -> Result<BoardFiles<'s, 'a>, Stopped<'a>> {
        let text = self.file_at(rt, self.text)?;
        let state = self.file_at(rt, self.state)?;
        let script = self.file_at(rt, self.script)?;
        expect_two(&text, &state, self.state)?;
        expect_two(&text, &script, self.script)?;
        expect_two(&state, &script, self.script)?;
        Ok(Files::new(
            rt.alloc(),
            kept(text, self.text, errors),
            kept(state, self.state, errors),
            kept(script, self.script, errors),
        ))
    }
}

/// Refuses two of a board's files that are one file, or may be. `path` is the path of the second.
fn expect_two<'a>(
    one: &Option<TextFile<'a>>,
    other: &Option<TextFile<'a>>,
    path: Option<&'a str>,
) -> Result<(), Stopped<'a>> {
    let (Some(one), Some(other)) = (one, other) else {
        return Ok(());
    };
    let why = WriteFault {
        name: Name::Own,
        why: Cause::Both,
    };
    match one.meets(other) {
        Ok(false) => Ok(()),
        Ok(true) | Err(_) => Err(Stopped::at(path.unwrap_or("-"), StopFault::File(why))),
    }
}

/// Returns the file of this path, if there is one, as one that is written again whatever became of earlier writes.
fn kept<'s, 'a>(
    file: Option<TextFile<'a>>,
    path: Option<&'a str>,
    errors: &'s RefCell<Errors<'a>>,
) -> Option<Kept<'a, WholeText<TextFile<'a>>, Told<'s, 'a>>> {
    Some(Kept::new(WholeText::new(file?), path?, Shared::of(errors)))
}

/// Makes a board of the sheet's match, with an empty book.
fn board_of(rt: &HostRuntime, sheet: &MatchSheet) -> Result<Board<CheckedBook>, Stopped<'static>>
    ensures { IfOk result (IsFresh sheet.now) }
{
    match CheckedBook::new(rt.alloc(), sheet.innings()) {
        Ok(book) => Ok(Board::new(sheet.game(), book)),
        Err(why) => Err(Stopped::at("-", StopFault::from(why))),
    }
}

/// Makes a board's memory of the rounds that it has heard: empty as yet.
fn witness_of(rt: &HostRuntime) -> Result<Witness, Stopped<'static>>
    ensures { IfOk result (λ witness. witness ≡ []) }
{
    match Witness::new(rt.alloc()) {
        Ok(witness) => Ok(witness),
        Err(why) => Err(Stopped::at("-", StopFault::from(why))),
    }
}

/// A board that was kept: its life, and its command's answer.
#[derive(Drop)]
pub struct Ended<'a> {
    pub life: BoardLife<'a>,
    pub answer: Result<bool, Stopped<'a>>,
}

/// Returns the command's answer, from how its board ended.
fn answer_of<'a>(ended: Result<(), WriteFailed>) -> Result<bool, Stopped<'a>>
    ensures { IfOk result (λ refused. (refused ≡ false) × IsOk ended) }
{
    match ended {
        Ok(()) => Ok(false),
        Err(_) => Err(Stopped::at("-", StopFault::Write)),
    }
}

/// `ground board`: keeps a board that listens at an address, shows its six lines at the start and whenever they change, and
/// tells standard error what it can't take, and when no desk is heard. Once it has heard a desk, it also writes its text, its
/// state as JSON, and that JSON as a script to a file each, if they are named; a failed write of one ends no board. A page at
/// an address, if one is given, shows text and state. Its datagrams are sealed with the sheet, and with the key in a file if
/// one is named. If it is refused before it begins, there is no life.
#[inline(never)]
pub fn start_board<'a>(
    rt: &'a HostRuntime,
    setting: &BoardSetting<'a>,
) -> Result<Ended<'a>, Stopped<'a>>
    ensures sheet { IfOk result (λ ended. sheet_path_of ended.life ≡ setting.now.sheet.now) }
    ensures key { IfOk result (λ ended. key_of ended.life ≡ option_copied setting.now.key) }
    ensures answer { IfOk result (λ ended. IfOk ended.answer (λ refused.
        (refused ≡ false) × IsOk (traces_in ended.life).ended)) }
{
    let source = sheet_file_at(rt, setting.sheet)?;
    let sheet = &source.sheet;
    let sealing = Sealing::of(rt, sheet, setting.sheet, Asker::Board, setting.key)?;
    let output = output_at(rt)?;
    let errors = RefCell::new(errors_at(rt)?);
    let paths = Paths {
        sheet: setting.sheet,
        key: setting.key,
        text: setting.shows.text,
        state: setting.shows.json,
        script: setting.shows.script,
    };
    let files = paths.files(rt, &errors)?;
    let page = Page::at(rt, setting.shows.serve)?;
    let board = board_of(rt, sheet)?;
    let witness = witness_of(rt)?;
    page.wait(rt, sheet, board.book(), paths.state);
    let ends = page.wait_ends();
    let sealed = sealing.sealed_at(
        rt,
        setting.at,
        setting.peers,
        ends,
        page.called(),
        Shared::of(&errors),
    )?;
    let link = sealing.link_over(rt.alloc(), MonotonicClock::new(rt), sealed);
    let _ = sealing.tell_fingerprints(&mut Shared::of(&errors));
    page.tell(rt, &mut Shared::of(&errors));
    let mut clock = MonotonicClock::new(rt);
    let state = Displays {
        files,
        page: page.panes(rt.alloc(), &errors),
        errors: &errors,
        audience: page.audience(),
        heard: Hearings::begun(clock.millis()),
        silence: Silence::NOTHING,
    };
    let lines = Watched::new(output);
    let scoreboard = Scoreboard { lines, state };
    let watch = Notes::watching(witness, Shared::of(&errors));
    let sealed = Sealed {
        sealing: &sealing,
        key: setting.key,
    };
    let life = keep_on(source, board, sealed, link, &mut clock, scoreboard, watch);
    let answer = answer_of(life.ended());
    Ok(Ended { life, answer })
}
