//! The marks of an over's deliveries, and the over's runs.

ghost use Rattle.std.specs.Prelude.{◌≡◌, ◌≤◌, OnOk, length};
ghost use Rattle.notation.specs.declared.entry.TheConstants.{PLACES};
ghost use Rattle.ball_laws.specs.Sums.{tally};
ghost use Rattle.match_laws.specs.Figures.{runs_of};
ghost use Rattle.corrections.specs.Overs.{balls_of};
ghost use Rattle.cards.specs.Marks as laws;
ghost use Rattle.streams.specs.Watched.{Prints, TellsFailure};
ghost use Rattle.score_rows.specs.Fit as fit;
ghost use Rattle.score_rows.specs.Row as rows;
ghost use Rattle.score_rows.specs.inner.Items as items;

use crate::room::Room;
use crate::text::Text;
use cards::{Mark, all_runs, dead_mark, mark_of};
use corrections::{Placed, bowler_of};
use notation::{Ball, Plain};
use streams::{Sink, Watched, WriteFailed};

type MarkText = (Option<u32>, &'static str, &'static str);

fn mark_text(mark: Mark) -> MarkText
    ensures { ⟦<MarkText as Text>⟧.bytes result ≡ laws.mark_text mark }
{
    match mark {
        Mark::Dot(text) => (None, text, ""),
        Mark::Runs(count, kind, wicket) => (Some(count), kind, wicket),
    }
}

type BallMark = (&'static str, MarkText, &'static str);

/// Returns a delivery's mark, after a space.
fn ball_mark(ball: &Ball) -> BallMark
    ensures { ⟦<BallMark as Text>⟧.bytes result ≡ laws.spaced_mark ball.now }
{
    (" ", mark_text(mark_of(ball)), dead_mark(ball.dead))
}

type ItemMark = Option<BallMark>;

/// Returns an item's mark, if it is a delivery.
fn item_mark(item: &Plain) -> ItemMark
    ensures { ⟦<ItemMark as Text>⟧.bytes result ≡ items.item_mark item.now }
{
    match item {
        Plain::Ball(ball) => Some(ball_mark(ball)),
        _ => None,
    }
}

/// The marks of an over's deliveries.
#[derive(Clone, Copy)]
pub struct Marks<'a> {
    pub over: &'a [Placed],
}

fn marks_room(room: Room, over: &[Placed]) -> Room
    ensures { result ≡ fit.behind room (rows.marks (balls_of over.now)) }
{
    let mut room = room;
    for placed in over {
        room = item_mark(&placed.item).behind(room);
    }
    room
}

fn print_marks<W: Sink>(out: &mut Watched<W>, over: &[Placed]) -> Result<(), WriteFailed>
    ensures text { OnOk result (Prints W.contents out.old out.new (rows.marks (balls_of over.now))) }
    ensures failed { TellsFailure result out.old out.new }
{
    for placed in over {
        item_mark(&placed.item).print(out)?;
    }
    Ok(())
}

impl<'a> Text for Marks<'a> {
    ghost bytes = { λ marks. rows.marks (balls_of marks.over.now) };

    fn behind(&self, room: Room) -> Room {
        marks_room(room, self.over)
    }

    fn print<W: Sink>(&self, out: &mut Watched<W>) -> Result<(), WriteFailed> {
        print_marks(out, self.over)
    }
}

pub type OpenMarks<'a> = Option<(&'static str, &'static str, Marks<'a>)>;

fn left_out(is_all: bool) -> &'static str
    ensures { result.now ≡ rows.left_out is_all }
{
    if is_all { "" } else { " <" }
}

/// Returns the marks of the open over: of all its deliveries, or of those shown.
pub fn open_marks<'a>(over: &[Placed], is_all: bool, shown: &'a [Placed]) -> OpenMarks<'a>
    ensures { ⟦<OpenMarks<'static> as Text>⟧.bytes result
        ≡ rows.open_marks (balls_of over.now) is_all (balls_of shown.now) }
{
    if bowler_of(over).is_none() {
        return None;
    }
    Some((" ", left_out(is_all), Marks { over: shown }))
}

/// Returns the newest items of an over, as many as there is room for.
pub fn newest_of(over: &[Placed], room: Room) -> &[Placed]
    ensures { balls_of result.now ≡ rows.newest room (balls_of over.now) }
{
    let mut room = room;
    let mut from = over.len();
    while from > 0 {
        let placed = &over[from - 1];
        room = item_mark(&placed.item).behind(room);
        if !room.is_left() {
            return &over[from..];
        }
        from -= 1;
    }
    over
}

/// Returns the runs of an item: 0 if it is no delivery.
fn item_runs(item: &Plain) -> u32
    ensures value { result ≡ items.item_runs item.now }
    ensures bound { result ≤ 260 }
{
    match item {
        Plain::Ball(ball) => all_runs(ball),
        _ => 0,
    }
}

/// Returns the runs of an over's deliveries.
pub fn runs_of(over: &[Placed]) -> u32
    requires { length over.now ≤ PLACES }
    ensures { result ≡ tally runs_of (balls_of over.now) }
{
    let mut runs = 0;
    for placed in over {
        runs += item_runs(&placed.item);
    }
    runs
}
