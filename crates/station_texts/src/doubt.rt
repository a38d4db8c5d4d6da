//! What messages show of lines that a desk's file lacks, and whether a desk doubts its own file for that.

ghost use Rattle.std.specs.Prelude.{◌≡◌, OnOk};
ghost use Rattle.streams.specs.Watched.{Prints, TellsFailure};
ghost use Rattle.station_texts.specs.Doubts as doubts;

use streams::{Sink, Watched, WriteFailed};

/// What a received message shows about the files of both desks.
#[derive(Clone, Copy, Debug)]
pub enum Evidence {
    /// Nothing.
    Nothing,
    /// The other desk's file lacks lines that this one has.
    OtherLacks,
    /// The other desk is at a position that it can't have reached, by what this desk has voted.
    Ahead,
    /// A vote of this desk came that isn't in its file.
    Unkept,
    /// The other desk is at this desk's position.
    Level,
}

/// Whether a desk doubts that its file has all its lines. While it does, it casts no vote.
#[derive(Clone, Copy, Debug)]
pub enum Doubt {
    /// The desk has no doubt.
    No,
    /// The other desk was ahead. This lasts until the other desk is at this desk's position, or the scorer says `go on`.
    Yes,
    /// A vote of this desk came that isn't in its file. This lasts until the scorer says `go on`.
    Lost,
    /// The scorer said `go on`. From then on no evidence raises a doubt.
    Dismissed,
}

impl Doubt {
    /// Returns the doubt after a message has shown this evidence.
    pub fn after(self, evidence: Evidence) -> Doubt
        ensures { result ≡ doubts.doubt_after self evidence }
    {
        match (self, evidence) {
            (Doubt::No, Evidence::Ahead) => Doubt::Yes,
            (Doubt::No | Doubt::Yes, Evidence::Unkept) => Doubt::Lost,
            (Doubt::Yes, Evidence::Level) => Doubt::No,
            (doubt, _) => doubt,
        }
    }

    /// Whether the doubt keeps the desk from casting votes.
    pub fn holds_up(self) -> bool
        ensures { result ≡ doubts.holds_up self }
    {
        matches!(self, Doubt::Yes | Doubt::Lost)
    }

    /// Returns the doubt after the scorer has said `go on`.
    pub fn dismissed(self) -> Doubt
        ensures { result ≡ doubts.dismissed self }
    {
        match self {
            Doubt::No => Doubt::No,
            _ => Doubt::Dismissed,
        }
    }
}

/// Prints that this desk's file lacks lines that the other desk has.
fn print_ahead<W: Sink>(out: &mut Watched<W>) -> Result<(), WriteFailed>
    ensures text { OnOk result (Prints W.contents out.old out.new doubts.ahead_line) }
    ensures failed { TellsFailure result out.old out.new }
{
    writeln!(
        out,
        "this file lacks lines that the other desk has: put the right file back, or type go on"
    )
}

/// Prints that this desk's file lacks lines that a board has.
fn print_unkept<W: Sink>(out: &mut Watched<W>) -> Result<(), WriteFailed>
    ensures text { OnOk result (Prints W.contents out.old out.new doubts.unkept_line) }
    ensures failed { TellsFailure result out.old out.new }
{
    writeln!(
        out,
        "this file lacks lines that a board has, or two laptops are this desk: put the right file back, or type go on"
    )
}

/// Prints that a desk begins to doubt its file, or that it no longer does.
pub(crate) fn print_doubt<W: Sink>(
    out: &mut Watched<W>,
    doubt: Doubt,
    evidence: Evidence,
) -> Result<(), WriteFailed>
    ensures text { OnOk result (Prints W.contents out.old out.new (doubts.doubt_text doubt evidence)) }
    ensures failed { TellsFailure result out.old out.new }
{
    match (doubt, evidence) {
        (Doubt::No, Evidence::Ahead) => print_ahead(out),
        (Doubt::No | Doubt::Yes, Evidence::Unkept) => print_unkept(out),
        (Doubt::Yes, Evidence::Level) => writeln!(
            out,
            "the other desk is at the same place: this desk takes lines again"
        ),
        _ => Ok(()),
    }
}

/// Prints that a desk doubts its file, if it does.
pub(crate) fn print_doubted<W: Sink>(out: &mut Watched<W>, doubt: Doubt) -> Result<(), WriteFailed>
    ensures text { OnOk result (Prints W.contents out.old out.new (doubts.doubted_text doubt)) }
    ensures failed { TellsFailure result out.old out.new }
{
    match doubt {
        Doubt::Yes => print_ahead(out),
        Doubt::Lost => print_unkept(out),
        Doubt::No | Doubt::Dismissed => Ok(()),
    }
}

/// Prints the answer to `go on`: the desk goes on, or nothing held it up.
pub(crate) fn print_going<W: Sink>(out: &mut Watched<W>, doubt: Doubt) -> Result<(), WriteFailed>
    ensures text { OnOk result (Prints W.contents out.old out.new (doubts.going_text (doubts.holds_up doubt))) }
    ensures failed { TellsFailure result out.old out.new }
{
    if doubt.holds_up() {
        writeln!(out, "this desk goes on with its file as it is")
    } else {
        writeln!(out, "nothing holds this desk up")
    }
}
