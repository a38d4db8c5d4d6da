//! The marks of deliveries in the row of an over.

ghost use Rattle.std.specs.Prelude.{◌≡◌, ◌≤◌, ◌++◌, OnOk, codes};
ghost use Rattle.match_laws.specs.Figures.{runs_of};
ghost use Rattle.cards.specs.Marks as laws;
ghost use Rattle.cards.specs.Marks.{mark_text};
ghost use Rattle.streams.specs.Watched.{Prints, TellsFailure};

use ball_laws::runs_of;
use notation::{Ball, Kind};
use streams::{Sink, Watched, WriteFailed};

/// The mark of a delivery in the row of an over: these texts, one after another.
#[derive(Clone, Copy)]
pub enum Mark {
    /// A delivery with no runs.
    Dot(&'static str),
    /// The number of runs, the mark of the kind of delivery, and the mark of a wicket.
    Runs(u32, &'static str, &'static str),
}

/// Returns the sum of all runs of a delivery.
pub fn all_runs(ball: &Ball) -> u32
    ensures value { result ≡ runs_of ball.now }
    ensures bound { result ≤ 260 }
{
    let split = runs_of(ball);
    split.striker + split.byes + split.legs + split.wides + split.noballs
}

fn kind_mark(kind: Kind) -> &'static str
    ensures { result.now ≡ laws.kind_mark kind }
{
    match kind {
        Kind::Bat => "",
        Kind::Bye => "b",
        Kind::Leg => "lb",
        Kind::Wide => "wd",
        Kind::Nb | Kind::NbBye | Kind::NbLeg => "nb",
    }
}

fn wicket_mark(is_out: bool) -> &'static str
    ensures { result.now ≡ laws.wicket_mark is_out }
{
    if is_out { "W" } else { "" }
}

fn dot_mark(is_out: bool) -> &'static str
    ensures { result.now ≡ laws.dot_mark is_out }
{
    if is_out { "W" } else { "." }
}

/// Returns the mark of a delivery of this kind with these runs, with a wicket or without.
fn mark_with(runs: u32, kind: Kind, is_out: bool) -> Mark
    ensures { mark_text result ≡ laws.mark runs kind is_out }
{
    if runs == 0 {
        Mark::Dot(dot_mark(is_out))
    } else {
        Mark::Runs(runs, kind_mark(kind), wicket_mark(is_out))
    }
}

/// Returns a delivery's mark: all its runs, with the penalty of a Wide or a No ball, its kind, and `W` if a wicket fell.
pub fn mark_of(ball: &Ball) -> Mark
    ensures { mark_text result ≡ laws.mark_of ball.now }
{
    mark_with(all_runs(ball), ball.kind, ball.out.is_some())
}

/// Prints a space and then a mark.
fn print_mark<W: Sink>(out: &mut Watched<W>, mark: Mark) -> Result<(), WriteFailed>
    ensures text { OnOk result (Prints W.contents out.old out.new (codes " " ++ mark_text mark)) }
    ensures failed { TellsFailure result out.old out.new }
{
    match mark {
        Mark::Dot(text) => write!(out, " {text}"),
        Mark::Runs(count, kind, wicket) => write!(out, " {count}{kind}{wicket}"),
    }
}

/// Returns `d`, the letter after the mark of a delivery that was ruled dead, or else an empty text.
pub fn dead_mark(is_dead: bool) -> &'static str
    ensures { result.now ≡ laws.dead_mark is_dead }
{
    if is_dead { "d" } else { "" }
}

/// Prints a space and then a delivery's mark, with `d` if the delivery was ruled dead.
pub fn print_ball<W: Sink>(out: &mut Watched<W>, ball: &Ball) -> Result<(), WriteFailed>
    ensures text { OnOk result (Prints W.contents out.old out.new (laws.spaced_mark ball.now)) }
    ensures failed { TellsFailure result out.old out.new }
{
    print_mark(out, mark_of(ball))?;
    let dead = dead_mark(ball.dead);
    write!(out, "{dead}")
}
