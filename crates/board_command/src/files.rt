//! What a board shows: its files, which other programs read, with its text, its state, and that state as a script; and its
//! page.

ghost use Rattle.std.specs.Prelude.{◌≡◌, ℕ, List, Some, is_err, false, length, IfOk};
ghost use Rattle.corrections.specs.CleanList.{history_of};
ghost use Rattle.cards.specs.Board as texts;
ghost use Rattle.machine_files.specs.Texts.{Takes};
ghost use Rattle.scoreboard.specs.Value as laws;
ghost use Rattle.board_command.specs.Files as given;
ghost use Rattle.board_command.specs.Files.{AreKept};
ghost use Rattle.board_command.specs.Hearing.{last_heard};
ghost use Rattle.board_command.specs.inner.Due as due;
ghost use Rattle.board_command.specs.inner.Due.{AreMade, IsMadeWhere, IsText};
ghost use Rattle.board_command.specs.declared.files.TheConstants.{FOREVER};
ghost use Rattle.board_command.specs.declared.times.TheConstants.{LONGEST_STATE_AGE};

use crate::hearing::{HeardAt, Hearings, Silence};
use crate::page::Audience;
use crate::times::{FILE_RETRY_WAIT, LONGEST_STATE_AGE, SHORTEST_FILE_AGE};
use agree_core::Message;
use board::{Trouble, Why};
use cards::{MatchSheet, board_lines};
use corrections::BookOf;
use live::{Shows, SightLog};
use machine_files::Replaces;
use scoreboard::board_text;
use setup::{StopFault, print_fault, printable};
use station_screens::{Errors, Shared, retry};
use std::alloc::{AllocError, Global};
use std::cell::RefCell;
use streams::{Sink, Watched, WriteFailed};

/// A text stands as long as its book does.
const FOREVER: u64 = u64::MAX;

/// What a board hands over with its book: its number of entries, the board's trouble, when the desks were heard, and the time.
#[derive(Clone, Copy)]
struct Moment {
    entries: u32,
    trouble: Option<Trouble>,
    heard: HeardAt,
    now: u64,
}

impl Moment {
    /// Whether the desks are silent.
    fn is_silent(self) -> bool
        ensures { result ≡ given.silent_at self }
    {
        self.heard.is_silent(self.now)
    }
}

/// Whether both are true, or both false.
fn same(one: bool, other: bool) -> bool
    ensures { result ≡ given.same one other }
{
    one == other
}

/// Whether two reasons that keep a board from going on are the same.
fn same_why(one: Why, other: Why) -> bool
    ensures { result ≡ given.same_why one other }
{
    match one {
        Why::Refused => matches!(other, Why::Refused),
        Why::Anew => matches!(other, Why::Anew),
        Why::Apart => matches!(other, Why::Apart),
    }
}

/// Whether the same trouble keeps a board from going on both times, or none does.
fn same_trouble(one: Option<Trouble>, other: Option<Trouble>) -> bool
    ensures { result ≡ given.same_trouble one other }
{
    match (one, other) {
        (None, None) => true,
        (Some(one), Some(other)) => one.place == other.place && same_why(one.why, other.why),
        _ => false,
    }
}

/// The last try to write a file: the book's number of entries, the board's trouble, whether the desks were silent, the time,
/// and whether it failed.
#[derive(Clone, Copy)]
struct Tried {
    entries: u32,
    trouble: Option<Trouble>,
    is_silent: bool,
    at: u64,
    has_failed: bool,
}

impl Tried {
    ghost use Rattle.std.specs.Prelude.{◌-◌, nat_le};
    ghost use Rattle.board_command.specs.Files.{has_all, wait_of};

    /// Whether the file has all that there is to tell at this moment.
    fn is_of(self, moment: Moment) -> bool
        ensures { result ≡ has_all self moment }
    {
        self.entries == moment.entries
            && same_trouble(self.trouble, moment.trouble)
            && same(self.is_silent, moment.is_silent())
    }

    /// Whether a file that stands at most `longest` milliseconds is due at this moment: the last write failed, the book has
    /// grown, something else is to be told, or the file gets old.
    fn is_past(self, moment: Moment, longest: u64) -> bool
        ensures { result ≡ nat_le (wait_of self moment longest) (moment.now - self.at) }
    {
        let wait = if self.has_failed {
            FILE_RETRY_WAIT
        } else if self.is_of(moment) {
            longest
        } else {
            SHORTEST_FILE_AGE
        };
        moment.now.saturating_sub(self.at) >= wait
    }
}

/// A file that is written whenever it is due, whatever became of earlier writes. Standard error is told of a failed write, once
/// until a write succeeds again; not being able to tell it is no fault.
#[derive(Drop)]
pub struct Kept<'a, T, E> {
    file: T,
    path: &'a str,
    errors: Watched<E>,
    tried: Option<Tried>,
}

impl<'a, T: Replaces, E: Sink> Kept<'a, T, E> {
    ghost use Rattle.board_command.specs.Files.{is_due, tried_at};

    /// Makes a file of this path that hasn't been written yet.
    pub fn new(file: T, path: &'a str, errors: E) -> Kept<'a, T, E> {
        Kept {
            file,
            path,
            errors: Watched::new(errors),
            tried: None,
        }
    }

    /// Whether the file is due: never before a desk was heard.
    fn is_due(&self, moment: Moment, longest: u64) -> bool
        ensures { result ≡ is_due self.now.tried moment longest }
    {
        if !moment.heard.is_heard() {
            return false;
        }
        match self.tried {
            Some(tried) => tried.is_past(moment, longest),
            None => true,
        }
    }

    /// Notes whether the file could be written.
    fn note(&mut self, written: Result<(), StopFault>, moment: Moment)
        ensures tried { self.new.tried ≡ Some (tried_at moment (is_err written)) }
        ensures file { self.new.file ≡ self.old.file }
    {
        let was_told = match self.tried {
            Some(tried) => tried.has_failed,
            None => false,
        };
        if let Err(why) = written {
            if !was_told {
                let _ = print_fault(&mut self.errors, printable(self.path), why);
            }
        }
        self.tried = Some(Tried {
            entries: moment.entries,
            trouble: moment.trouble,
            is_silent: moment.is_silent(),
            at: moment.now,
            has_failed: written.is_err(),
        });
    }
}

/// Whether there is a file, and it is due.
fn is_due<T: Replaces, E: Sink>(file: &Option<Kept<'_, T, E>>, moment: Moment, longest: u64) -> bool
    ensures { result ≡ due.is_due longest moment file.now }
{
    match file {
        Some(kept) => kept.is_due(moment, longest),
        None => false,
    }
}

/// Which of a board's texts are due.
#[derive(Clone, Copy)]
struct Due {
    lines: bool,
    state: bool,
    script: bool,
}

impl Due {
    /// Returns the texts that are due by either.
    fn or(self, other: Due) -> Due
        ensures { result ≡ due.either self other }
    {
        Due {
            lines: self.lines || other.lines,
            state: self.state || other.state,
            script: self.script || other.script,
        }
    }
}

/// A text that was made, or that memory ran out for it; nothing if it isn't due.
type Made = Option<Result<Vec<u8>, AllocError>>;

/// Returns the six lines of a board with this book.
fn lines_of<B: BookOf>(alloc: Global, sheet: &MatchSheet, book: &B) -> Result<Vec<u8>, AllocError>
    ensures { IfOk result (λ text.
        text.items ≡ texts.board sheet.now (B.innings_a_side book.now) (history_of (B.content book.now))) }
{
    let mut out = Watched::new(Vec::new(alloc));
    match board_lines(sheet, book.score(), &mut out) {
        Ok(()) => Ok(out.into_inner()),
        Err(_) => Err(AllocError),
    }
}

/// Returns the state of a board with this book, as JSON.
fn state_of<B: BookOf>(
    alloc: Global,
    sheet: &MatchSheet,
    book: &B,
    moment: Moment,
) -> Result<Vec<u8>, AllocError>
    ensures { IfOk result (λ text.
        text.items ≡ laws.board_text sheet.now (B.innings_a_side book.now) (B.content book.now) (last_heard moment.heard moment.now) moment.trouble) }
{
    let heard = moment.heard.last(moment.now);
    board_text(alloc, sheet, book, heard, moment.trouble)
}

/// Returns the script of a state that was made.
fn script_of(alloc: Global, state: &Made) -> Result<Vec<u8>, AllocError>
    ensures { (text : List ℕ) → IsText text state.now → IfOk result (λ script. script.items ≡ given.script_with text) }
{
    let Some(Ok(state)) = state else {
        return Err(AllocError);
    };
    let mut script = Vec::new(alloc);
    script.extend_from_slice("window.yermudosh = ".as_bytes())?;
    script.extend_from_slice(state.as_slice())?;
    Ok(script)
}

/// A board's texts at one moment, each made once for its file and its page.
#[derive(Drop)]
struct Texts {
    lines: Made,
    state: Made,
    script: Made,
}

/// Returns the lines of a board with this book, if they are due.
fn lines_due<B: BookOf>(alloc: Global, sheet: &MatchSheet, book: &B, is_due: bool) -> Made
    ensures { IsMadeWhere is_due (texts.board sheet.now (B.innings_a_side book.now) (history_of (B.content book.now))) result }
{
    if is_due {
        Some(lines_of(alloc, sheet, book))
    } else {
        None
    }
}

/// Returns the state of a board with this book, if the state or its script is due.
fn state_due<B: BookOf>(
    alloc: Global,
    sheet: &MatchSheet,
    book: &B,
    moment: Moment,
    wanted: Due,
) -> Made
    ensures { IsMadeWhere wanted.state
        (laws.board_text sheet.now (B.innings_a_side book.now) (B.content book.now) (last_heard moment.heard moment.now) moment.trouble)
        result }
{
    if wanted.state || wanted.script {
        Some(state_of(alloc, sheet, book, moment))
    } else {
        None
    }
}

/// Returns the script of a state that was made, if it is due.
fn script_due(alloc: Global, state: &Made, is_due: bool) -> Made
    ensures { (text : List ℕ) → IsText text state.now → IsMadeWhere is_due (given.script_with text) result }
{
    if is_due {
        Some(script_of(alloc, state))
    } else {
        None
    }
}

/// Returns the texts of this book that are due.
fn texts_due<B: BookOf>(
    alloc: Global,
    sheet: &MatchSheet,
    book: &B,
    moment: Moment,
    wanted: Due,
) -> Texts
    ensures { AreMade wanted
        (texts.board sheet.now (B.innings_a_side book.now) (history_of (B.content book.now)))
        (laws.board_text sheet.now (B.innings_a_side book.now) (B.content book.now) (last_heard moment.heard moment.now) moment.trouble)
        result }
{
    let lines = lines_due(alloc, sheet, book, wanted.lines);
    let state = state_due(alloc, sheet, book, moment, wanted);
    let script = script_due(alloc, &state, wanted.script);
    Texts {
        lines,
        state,
        script,
    }
}

/// Writes a text that was made to a file.
fn put_text<T: Replaces>(file: &mut T, made: &Result<Vec<u8>, AllocError>) -> Result<(), StopFault>
    ensures { (text : List ℕ) → IfOk made.now (λ bytes. bytes.items ≡ text) →
        Takes result (T.given file.old) (T.given file.new) text }
{
    let Ok(text) = made else {
        return Err(StopFault::NoMemory);
    };
    match file.replace(text.as_slice()) {
        Ok(()) => Ok(()),
        Err(why) => Err(StopFault::File(why)),
    }
}

/// Writes a text that was made to its file, if there is one and it is due, and notes whether it could be written.
fn put<T: Replaces, E: Sink>(
    file: &mut Option<Kept<'_, T, E>>,
    made: &Made,
    moment: Moment,
    longest: u64,
)
    ensures { (text : List ℕ) → IsMadeWhere (due.is_due longest moment file.old) text made.now →
        AreKept T.given longest moment text file.old file.new }
{
    if let Some(kept) = file
        && kept.is_due(moment, longest)
        && let Some(text) = made
    {
        let written = put_text(&mut kept.file, text);
        kept.note(written, moment);
    }
}

/// The files of a board, as far as it has them: each holds a whole text that the board had.
#[derive(Drop)]
pub struct Files<'a, T, E, B> {
    alloc: Global,
    text: Option<Kept<'a, T, E>>,
    state: Option<Kept<'a, T, E>>,
    script: Option<Kept<'a, T, E>>,
    log: SightLog<B>,
}

impl<'a, T: Replaces, E: Sink, B: BookOf> Files<'a, T, E, B> {
    /// Makes a board's files, none of them written yet.
    pub fn new(
        alloc: Global,
        text: Option<Kept<'a, T, E>>,
        state: Option<Kept<'a, T, E>>,
        script: Option<Kept<'a, T, E>>,
    ) -> Files<'a, T, E, B> {
        Files {
            alloc,
            text,
            state,
            script,
            log: SightLog::Empty,
        }
    }
}

impl<T: Replaces, E: Sink, B: BookOf + Drop> Files<'_, T, E, B> {
    ghost use Rattle.std.specs.Prelude.{◌∷◌, ◌++◌, []};
    ghost use Rattle.live.specs.Sights.{sight_of};
    ghost use Rattle.live.specs.SightLogs.{sights_of};
    ghost use Rattle.board_command.specs.Files.{FilesGoOn};

    /// Returns which of the files are due.
    fn due(&self, moment: Moment) -> Due
        ensures { result ≡ due.due_of self.now moment }
    {
        Due {
            lines: is_due(&self.text, moment, FOREVER),
            state: is_due(&self.state, moment, LONGEST_STATE_AGE),
            script: is_due(&self.script, moment, LONGEST_STATE_AGE),
        }
    }

    /// Writes each file once a desk was heard, and again when the book has grown, when the board's trouble begins or ends, or
    /// when a silence of the desks begins or ends, at most ten times a second; after a failed write it tries once a second.
    /// State and script are written again within ten seconds in any case. A file that can't be written ends no board. The texts
    /// that are due have been made.
    fn show(&mut self, sheet: &MatchSheet, book: &B, moment: Moment, made: &Texts)
        requires made { AreMade (due.due_of self.old moment)
            (given.lines_of (sight_of sheet.now (B.innings_a_side book.now) (B.content book.now) moment.trouble))
            (given.state_of (sight_of sheet.now (B.innings_a_side book.now) (B.content book.now) moment.trouble) moment.heard moment.now)
            made.now }
        requires entries { moment.entries ≡ length (B.content book.now) }
        ensures seen { sights_of B.content B.innings_a_side self.new.log ≡ sights_of B.content B.innings_a_side self.old.log
            ++ sight_of sheet.now (B.innings_a_side book.now) (B.content book.now) moment.trouble ∷ [] }
        ensures goes_on { FilesGoOn T.given moment.heard self.old
            (sight_of sheet.now (B.innings_a_side book.now) (B.content book.now) moment.trouble) moment.now self.new }
    {
        put(&mut self.text, &made.lines, moment, FOREVER);
        put(&mut self.state, &made.state, moment, LONGEST_STATE_AGE);
        put(&mut self.script, &made.script, moment, LONGEST_STATE_AGE);
        self.log = self.log.handed(sheet, book, moment.trouble);
    }
}

/// All that a board shows at the end of a turn: its files and its page, which get the same books and don't keep each other from
/// being written; and at standard error that its desks are silent. What waits for standard error and for the page's viewers is
/// handed on, as far as it is taken.
#[derive(Drop)]
pub struct Displays<'e, 'v, 'a, F, P> {
    pub files: F,
    pub page: P,
    pub errors: &'e RefCell<Errors<'a>>,
    pub audience: Audience<'v>,
    /// When the desks were heard, and what was told of their silence.
    pub heard: Hearings,
    pub silence: Silence,
}

impl<'a, T: Replaces, P: Replaces, E: Sink, B: BookOf + Drop> Shows<B>
    for Displays<'_, '_, 'a, Files<'a, T, E, B>, Files<'a, P, E, B>> {
    ghost use Rattle.std.specs.Prelude.{◌∷◌, ◌++◌, []};
    ghost use Rattle.live.specs.HearingLogs.{hearings_of};
    ghost use Rattle.live.specs.Hearings.{hearing_of};
    ghost use Rattle.live.specs.SightLogs.{sights_of};
    ghost use Rattle.board_command.specs.Files.{FilesGoOn};
    ghost use Rattle.board_command.specs.Hearing.{desk_of, heard_from};
    ghost use Rattle.board_command.specs.Hearings.{times_of};

    ghost seen = { λ displays. sights_of B.content B.innings_a_side displays.files.log };

    ghost heard = { λ displays. hearings_of displays.heard.log };

    ghost goes_on = { λ old sight now new.
        FilesGoOn T.given (times_of new.heard) old.files sight now new.files
        × FilesGoOn P.given (times_of new.heard) old.page sight now new.page };

    /// A file that can't be written ends no board.
    ghost failed = { λ _. false };

    fn hear(&mut self, message: &Message, now: u64)
        ensures told { hearings_of self.new.heard.log ≡ hearings_of self.old.heard.log ++ hearing_of message.now now ∷ [] }
        ensures times { times_of self.new.heard ≡ heard_from (desk_of message.now) (times_of self.old.heard) now }
        ensures files { self.new.files ≡ self.old.files }
        ensures page { self.new.page ≡ self.old.page }
    {
        self.heard.hear(message, now);
    }

    fn show(
        &mut self,
        sheet: &MatchSheet,
        book: &B,
        trouble: Option<Trouble>,
        now: u64,
    ) -> Result<(), WriteFailed> {
        retry(self.errors);
        let heard = self.heard.at();
        self.silence.tell(heard, now, &mut Shared::of(self.errors));
        let moment = Moment {
            entries: book.len(),
            trouble,
            heard,
            now,
        };
        let wanted = self.page.due(moment).or(self.files.due(moment));
        let made = texts_due(self.files.alloc, sheet, book, moment, wanted);
        self.page.show(sheet, book, moment, &made);
        self.files.show(sheet, book, moment, &made);
        self.audience.attend(now);
        Ok(())
    }

    fn longest_wait(&self) -> u64 {
        self.audience.longest_wait()
    }
}
