//! Why a command ends early: what standard error is told, and whether something is refused.

ghost use Rattle.std.specs.Prelude.{◌≡◌, ◌⊎◌, codes, OnOk};
ghost use Rattle.streams.specs.Watched.{Prints, TellsFailure};
ghost use Rattle.setup.specs.Fault as texts;

use crate::key_fault::KeyFault;
use crate::key_owner::KeyOwner;
use books::{BookFault, Rejected, print_rejected, print_torn};
use cards::SheetFault;
use desk::OpenRefusal;
use machine_files::{Cause, WriteFault};
use schedules::ScheduleFault;
use std::alloc::AllocError;
use streams::{InputFault, Sink, Watched, WriteFailed};

/// The most turns that each station of a match has for a place.
pub const TURNS: usize = 50;

/// Why any command ends early: it decides what standard error is told, and the exit status. A command that has to tell more
/// faults apart has a fault type of its own.
#[derive(Clone, Copy)]
pub enum StopFault {
    /// Memory was refused.
    NoMemory,
    /// A read failed or was interrupted, or the input is longer than 16,777,216 bytes.
    Read,
    /// A write failed, to a stream or to the disk of a votes file.
    Write,
    /// The sheet is refused.
    Sheet(SheetFault),
    /// The sheet is refused, and standard error has been told why in words.
    SheetTold,
    /// The schedule is refused.
    Schedule(ScheduleFault),
    /// A votes file is refused.
    Votes(vote_store::Refusal),
    /// One of two votes files is refused, and the line names it.
    VotesNamed(vote_store::Refusal),
    /// The votes of a file are no legal book: the first place whose last vote is refused.
    BadVotes { place: u32 },
    /// The votes of both desks' files aren't of one history: the first place at which they can't be.
    NotOneHistory { place: u32 },
    /// A desk's votes file and its copy differ: the first place at which they do.
    FilesDiffer { place: u32 },
    /// A pen line is refused. Lines are numbered from 1.
    Line { number: u64, why: Rejected },
    /// The stations didn't agree this place within `TURNS` turns each.
    NotAgreed { place: u32 },
    /// No socket can be opened at an address.
    Listen,
    /// The disk of a running desk failed.
    Disk,
    /// The file of a running desk was moved, deleted or replaced.
    FileMoved,
    /// A file of a desk, a board or a new key can't be written.
    File(WriteFault),
    /// The file of a station's new keys can't be written in a folder.
    PairKeys(KeyOwner, Cause),
    /// The file of a running desk can't be written.
    Lost(WriteFault),
    /// The copy of a running desk can't be written.
    CopyLost(WriteFault),
    /// A file has no key.
    Key(KeyFault),
}

/// Whether a votes file is refused for what it holds, and no memory or disk is to blame.
fn is_file_refusal(why: vote_store::Refusal) -> bool
    ensures { result ≡ texts.is_file_refusal why }
{
    !matches!(
        why,
        vote_store::Refusal::NoMemory | vote_store::Refusal::File(entry_log::Refusal::Device)
    )
}

impl StopFault {
    /// Whether a sheet, a schedule, a votes file or a line is refused for what it holds or lacks, and no memory, stream,
    /// socket or disk is to blame.
    pub fn is_refusal(self) -> bool
        ensures { result ≡ texts.is_refusal self }
    {
        match self {
            StopFault::Sheet(SheetFault::NoMemory) => false,
            StopFault::Votes(why) | StopFault::VotesNamed(why) => is_file_refusal(why),
            StopFault::Schedule(ScheduleFault::NoMemory) => false,
            StopFault::Sheet(_) | StopFault::SheetTold | StopFault::Schedule(_) => true,
            StopFault::BadVotes { .. } | StopFault::NotOneHistory { .. } => true,
            StopFault::FilesDiffer { .. } | StopFault::Line { .. } => true,
            _ => false,
        }
    }
}

impl From<AllocError> for StopFault {
    ghost use Rattle.setup.specs.declared.fault.StopFault.TheVariants.{NoMemory};

    ghost from_gives = { λ _ fault. fault ≡ NoMemory };

    fn from(_why: AllocError) -> Self {
        StopFault::NoMemory
    }
}

impl From<InputFault> for StopFault {
    ghost use Rattle.setup.specs.Fault.{of_input};

    ghost from_gives = { λ why fault. fault ≡ of_input why };

    fn from(why: InputFault) -> Self {
        match why {
            InputFault::NoMemory => StopFault::NoMemory,
            InputFault::Read => StopFault::Read,
        }
    }
}

impl From<WriteFailed> for StopFault {
    ghost use Rattle.setup.specs.declared.fault.StopFault.TheVariants.{Write};

    ghost from_gives = { λ _ fault. fault ≡ Write };

    fn from(_why: WriteFailed) -> Self {
        StopFault::Write
    }
}

impl From<SheetFault> for StopFault {
    ghost use Rattle.setup.specs.Fault.{of_sheet};

    ghost from_gives = { λ why fault. fault ≡ of_sheet why };

    fn from(why: SheetFault) -> Self {
        match why {
            SheetFault::NoMemory => StopFault::NoMemory,
            _ => StopFault::Sheet(why),
        }
    }
}

impl From<ScheduleFault> for StopFault {
    ghost use Rattle.setup.specs.Fault.{of_schedule};

    ghost from_gives = { λ why fault. fault ≡ of_schedule why };

    fn from(why: ScheduleFault) -> Self {
        match why {
            ScheduleFault::NoMemory => StopFault::NoMemory,
            _ => StopFault::Schedule(why),
        }
    }
}

impl From<vote_store::Refusal> for StopFault {
    ghost use Rattle.setup.specs.Fault.{of_votes};

    ghost from_gives = { λ why fault. fault ≡ of_votes why };

    fn from(why: vote_store::Refusal) -> Self {
        match why {
            vote_store::Refusal::NoMemory => StopFault::NoMemory,
            vote_store::Refusal::File(entry_log::Refusal::Device) => StopFault::Write,
            _ => StopFault::Votes(why),
        }
    }
}

impl From<OpenRefusal> for StopFault {
    ghost use Rattle.setup.specs.Fault.{of_opening};

    ghost from_gives = { λ why fault. fault ≡ of_opening why };

    fn from(why: OpenRefusal) -> Self {
        match why {
            OpenRefusal::Votes(why) => StopFault::from(why),
            OpenRefusal::BadVotes { place } => StopFault::BadVotes { place },
        }
    }
}

impl From<BookFault> for StopFault {
    ghost use Rattle.setup.specs.Fault.{of_book};

    ghost from_gives = { λ why fault. fault ≡ of_book why };

    fn from(why: BookFault) -> Self {
        match why {
            BookFault::NoMemory => StopFault::NoMemory,
            BookFault::Votes(why) => StopFault::Votes(why),
            BookFault::BadVotes { place } => StopFault::BadVotes { place },
            BookFault::Line { number, why } => StopFault::Line { number, why },
        }
    }
}

/// Why a command ended, and its file or address: `-` for a standard stream.
#[derive(Clone, Copy)]
pub struct Stopped<'a> {
    pub path: &'a str,
    pub fault: StopFault,
}

impl<'a> Stopped<'a> {
    /// A command that met this fault at this file or address.
    pub fn at(path: &'a str, fault: StopFault) -> Stopped<'a>
        ensures { result ≡ record { path = path.entry; fault = fault } }
    {
        Stopped { path, fault }
    }

    /// Returns the fault with a refused votes file named, for a command that has two of them.
    pub fn named(self) -> Stopped<'a>
        ensures { result ≡ record self.entry { fault = texts.named self.entry.fault } }
    {
        match self.fault {
            StopFault::Votes(why) => Stopped::at(self.path, StopFault::VotesNamed(why)),
            _ => self,
        }
    }
}

fn print_sheet_fault<W: Sink>(out: &mut Watched<W>, why: SheetFault) -> Result<(), WriteFailed>
    ensures text { OnOk result (Prints W.contents out.old out.new (texts.sheet_line why)) }
    ensures failed { TellsFailure result out.old out.new }
{
    match why.number() {
        Some(number) => writeln!(out, "sheet: {number} {why}"),
        None => writeln!(out, "no memory"),
    }
}

/// Prints why a sheet is refused, in words.
pub fn print_in_words<W: Sink>(
    out: &mut Watched<W>,
    why: SheetFault,
    words: &str,
) -> Result<(), WriteFailed>
    ensures text { OnOk result (Prints W.contents out.old out.new (texts.worded_line why words.now)) }
    ensures failed { TellsFailure result out.old out.new }
{
    match why.number() {
        Some(number) => writeln!(out, "sheet: {number} {why}: {words}"),
        None => writeln!(out, "no memory"),
    }
}

fn print_schedule_fault<W: Sink>(
    out: &mut Watched<W>,
    why: ScheduleFault,
) -> Result<(), WriteFailed>
    ensures text { OnOk result (Prints W.contents out.old out.new (texts.schedule_line why)) }
    ensures failed { TellsFailure result out.old out.new }
{
    match why.number() {
        Some(number) => writeln!(out, "schedule: {number} {why}"),
        None => writeln!(out, "no memory"),
    }
}

fn print_votes_fault<W: Sink>(
    out: &mut Watched<W>,
    why: vote_store::Refusal,
) -> Result<(), WriteFailed>
    ensures text { OnOk result (Prints W.contents out.old out.new (texts.votes_line why)) }
    ensures failed { TellsFailure result out.old out.new }
{
    if let vote_store::Refusal::File(entry_log::Refusal::Device) = why {
        return writeln!(out, "cannot write");
    }
    match why.number() {
        Some(number) => writeln!(out, "votes: {number} {why}"),
        None => writeln!(out, "no memory"),
    }
}

fn print_named_votes_fault<W: Sink>(
    out: &mut Watched<W>,
    path: &str,
    why: vote_store::Refusal,
) -> Result<(), WriteFailed>
    ensures text { OnOk result (Prints W.contents out.old out.new (texts.named_votes_line path.now why)) }
    ensures failed { TellsFailure result out.old out.new }
{
    if let vote_store::Refusal::File(entry_log::Refusal::Device) = why {
        return writeln!(out, "cannot write");
    }
    match why.number() {
        Some(number) => writeln!(out, "votes {path}: {number} {why}"),
        None => writeln!(out, "no memory"),
    }
}

fn print_not_agreed<W: Sink>(
    out: &mut Watched<W>,
    place: u32,
    turns: usize,
) -> Result<(), WriteFailed>
    ensures text { OnOk result (Prints W.contents out.old out.new (texts.turns_line place turns)) }
    ensures failed { TellsFailure result out.old out.new }
{
    writeln!(out, "place {place} not agreed in {turns} turns")
}

/// Prints which file can't be written, and why.
fn print_file_fault<W: Sink>(
    out: &mut Watched<W>,
    path: &str,
    fault: WriteFault,
) -> Result<(), WriteFailed>
    ensures text { OnOk result (Prints W.contents out.old out.new (texts.file_line path.now fault)) }
    ensures failed { TellsFailure result out.old out.new }
{
    let (ending, words) = (fault.name.ending(), fault.why.words());
    writeln!(out, "cannot write: {path}{ending}: {words}")
}

/// Prints which file of a station's new keys can't be written in a folder, and why.
fn print_pair_fault<W: Sink>(
    out: &mut Watched<W>,
    path: &str,
    owner: KeyOwner,
    why: Cause,
) -> Result<(), WriteFailed>
    ensures text { OnOk result (Prints W.contents out.old out.new (texts.pair_file_line path.now owner why)) }
    ensures failed { TellsFailure result out.old out.new }
{
    let (name, words) = (owner.file_name(), why.words());
    writeln!(out, "cannot write: {path}{name}: {words}")
}

/// Prints which file of a desk that ran can't be written and why, and what its scorer is to do.
fn print_loss<W: Sink>(
    out: &mut Watched<W>,
    path: &str,
    fault: WriteFault,
) -> Result<(), WriteFailed>
    ensures text { OnOk result (Prints W.contents out.old out.new (texts.loss_lines path.now fault)) }
    ensures failed { TellsFailure result out.old out.new }
{
    let (ending, words) = (fault.name.ending(), fault.why.words());
    writeln!(
        out,
        "cannot write: {path}{ending}: {words}\nstart the same command again"
    )
}

/// Prints which file of the copy can't be written and why, and how the scorer goes on without the copy.
fn print_copy_loss<W: Sink>(
    out: &mut Watched<W>,
    path: &str,
    fault: WriteFault,
) -> Result<(), WriteFailed>
    ensures text { OnOk result (Prints W.contents out.old out.new (texts.copy_loss_lines path.now fault)) }
    ensures failed { TellsFailure result out.old out.new }
{
    let (ending, words) = (fault.name.ending(), fault.why.words());
    writeln!(
        out,
        "cannot write: {path}{ending}: {words}\nthis is the copy: to go on without it, start the same command without --copy"
    )
}

/// Prints which file has no key, and why.
fn print_no_key<W: Sink>(out: &mut Watched<W>, path: &str, why: KeyFault) -> Result<(), WriteFailed>
    ensures text { OnOk result (Prints W.contents out.old out.new (texts.no_key_line path.now why)) }
    ensures failed { TellsFailure result out.old out.new }
{
    let words = why.words();
    writeln!(out, "cannot read {path}: {words}")
}

/// Prints the lines that standard error has of a fault. `path` is the fault's file or address, `-` for a standard stream.
pub fn print_fault<W: Sink>(
    out: &mut Watched<W>,
    path: &str,
    fault: StopFault,
) -> Result<(), WriteFailed>
    ensures text { OnOk result (Prints W.contents out.old out.new (texts.fault_line path.now fault)) }
    ensures failed { TellsFailure result out.old out.new }
{
    match fault {
        StopFault::NoMemory => writeln!(out, "no memory"),
        StopFault::Read => writeln!(out, "cannot read {path}"),
        StopFault::Write => writeln!(out, "cannot write"),
        StopFault::Sheet(why) => print_sheet_fault(out, why),
        StopFault::SheetTold => write!(out, ""),
        StopFault::Schedule(why) => print_schedule_fault(out, why),
        StopFault::Votes(why) => print_votes_fault(out, why),
        StopFault::VotesNamed(why) => print_named_votes_fault(out, path, why),
        StopFault::BadVotes { .. } => writeln!(out, "votes: 64 BadVotes"),
        StopFault::NotOneHistory { place } => print_torn(out, place),
        StopFault::FilesDiffer { place } => {
            writeln!(out, "votes: the two files differ at place {place}")
        }
        StopFault::Line { number, why } => print_rejected(out, number, why),
        StopFault::NotAgreed { place } => print_not_agreed(out, place, TURNS),
        StopFault::Listen => writeln!(out, "cannot listen at {path}"),
        StopFault::Disk => writeln!(out, "cannot write\nstart the same command again"),
        StopFault::FileMoved => writeln!(
            out,
            "cannot write\nits file was moved, deleted or replaced: put it back"
        ),
        StopFault::File(why) => print_file_fault(out, path, why),
        StopFault::PairKeys(owner, why) => print_pair_fault(out, path, owner, why),
        StopFault::Lost(why) => print_loss(out, path, why),
        StopFault::CopyLost(why) => print_copy_loss(out, path, why),
        StopFault::Key(why) => print_no_key(out, path, why),
    }
}

/// Returns a path as it is printed: a question mark if it has a control character, which a terminal would obey.
pub fn printable(path: &str) -> &str
    ensures { (result.now ≡ path.now) ⊎ (result.now ≡ codes "?") }
{
    if path.chars().any(|letter| letter.is_control()) {
        "?"
    } else {
        path
    }
}
