//! The entries of an over.

ghost use Rattle.std.specs.Prelude.{◌≡◌, ◌<◌, ◌≤◌, [], None, OnOk, Some, IfSome, length, slice_get, true};
ghost use Rattle.notation.specs.declared.entry.TheConstants.{PLACES};
ghost use Rattle.notation.specs.Written.{IsPlain};
ghost use Rattle.ball_laws.specs.Crease.{standing_of};
ghost use Rattle.ball_laws.specs.Laws.{State, after, refusal};
ghost use Rattle.match_laws.specs.History.{begun};
ghost use Rattle.match_laws.specs.Stands.{ForEachHistory, begun_in};
ghost use Rattle.corrections.specs.CleanList.{history_of};
ghost use Rattle.streams.specs.Watched.{Prints, TellsFailure};
ghost use Rattle.book_rows.specs.OverEntries as over;

use crate::listing::{print_entry, print_place};
use ball_laws::Crease;
use cards::{MatchSheet, print_ball};
use corrections::{BookOf, Placed};
use match_laws::{Match, opponent};
use notation::{Ball, Entry, Plain, Player, Side};
use over_numbers::Count;
use streams::{Sink, Watched, WriteFailed};

/// Prints the number of the next delivery, as 9.2: its over, and which delivery of it.
fn print_number<W: Sink>(out: &mut Watched<W>, count: Count) -> Result<(), WriteFailed>
    requires overs { count.overs ≤ PLACES }
    requires balls { count.balls ≤ PLACES }
    ensures text { OnOk result (Prints W.contents out.old out.new (over.ball_number count)) }
    ensures failed { TellsFailure result out.old out.new }
{
    let number = count.overs + 1;
    let ball = count.balls + 1;
    write!(out, "{number}.{ball}")
}

/// Returns the name of the batter at an end, or `-` if it is vacant.
fn batter_name(sheet: &MatchSheet, side: Side, batter: Option<Player>) -> &str
    ensures { result.now ≡ over.batter_name sheet.now side batter }
{
    match batter {
        Some(player) => sheet.player(side, player),
        None => "-",
    }
}

/// Prints who bowls a delivery, and to whom.
fn print_players<W: Sink>(
    out: &mut Watched<W>,
    sheet: &MatchSheet,
    side: Side,
    striker: Option<Player>,
    ball: &Ball,
) -> Result<(), WriteFailed>
    ensures text { OnOk result (Prints W.contents out.old out.new (over.to_batter sheet.now side striker ball.now)) }
    ensures failed { TellsFailure result out.old out.new }
{
    let bowler = sheet.player(opponent(side), ball.bowler);
    let batter = batter_name(sheet, side, striker);
    write!(out, " {bowler} to {batter}:")
}

/// Prints a delivery: its number after this count, bowler, batter (the striker given here) and mark.
fn print_delivery<W: Sink>(
    out: &mut Watched<W>,
    sheet: &MatchSheet,
    side: Side,
    count: Count,
    striker: Option<Player>,
    ball: &Ball,
) -> Result<(), WriteFailed>
    requires overs { count.overs ≤ PLACES }
    requires balls { count.balls ≤ PLACES }
    ensures text { OnOk result (Prints W.contents out.old out.new (over.ball_text sheet.now side count striker ball.now)) }
    ensures failed { TellsFailure result out.old out.new }
{
    print_number(out, count)?;
    print_players(out, sheet, side, striker, ball)?;
    print_ball(out, ball)
}

/// Prints an entry with its place, and a delivery as `print_delivery` does.
fn print_item<W: Sink>(
    out: &mut Watched<W>,
    sheet: &MatchSheet,
    side: Side,
    count: Count,
    striker: Option<Player>,
    placed: Placed,
) -> Result<(), WriteFailed>
    requires overs { count.overs ≤ PLACES }
    requires balls { count.balls ≤ PLACES }
    requires item { IsPlain placed.item }
    ensures text { OnOk result (Prints W.contents out.old out.new
        (over.item_text sheet.now side count striker placed.place placed.item)) }
    ensures failed { TellsFailure result out.old out.new }
{
    let item = placed.item;
    match item {
        Plain::Ball(ball) => {
            print_place(out, placed.place)?;
            print_delivery(out, sheet, side, count, striker, &ball)
        }
        _ => print_entry(out, placed.place, &Entry::Write(item)),
    }
}

/// An over of an innings in which this side bats.
#[derive(Clone, Copy)]
struct InningsOver {
    side: Side,
    innings: usize,
    number: u32,
}

/// Prints an entry in a row, if it belongs to this over.
fn print_if<W: Sink>(
    out: &mut Watched<W>,
    sheet: &MatchSheet,
    wanted: InningsOver,
    count: Count,
    striker: Option<Player>,
    placed: Placed,
) -> Result<(), WriteFailed>
    requires innings { wanted.innings ≤ PLACES }
    requires overs { count.overs ≤ PLACES }
    requires balls { count.balls ≤ PLACES }
    requires item { IsPlain placed.item }
    ensures text { OnOk result (Prints W.contents out.old out.new
        (over.line_if sheet.now wanted.side wanted.innings wanted.number count striker placed)) }
    ensures failed { TellsFailure result out.old out.new }
{
    if !count.is_in_over(wanted.innings, wanted.number) {
        return Ok(());
    }
    print_item(out, sheet, wanted.side, count, striker, placed)?;
    writeln!(out)
}

/// Returns the crease after an item, unchanged if the item is refused.
fn crease_after(crease: &Crease, item: &Plain) -> Crease
    ensures { (s : State) → crease.now ≡ standing_of s → refusal s item.now ≡ None → result ≡ standing_of (after s item.now) }
{
    let mut next = *crease;
    if next.refusal(item).is_none() {
        next.take(item);
    }
    next
}

/// Returns the item at an index.
fn placed_at(items: &[Placed], index: usize) -> Placed
    requires { index < length items.now }
    ensures { slice_get items.now index ≡ Some result }
{
    items[index]
}

/// Whether any of these items belongs to an over of an innings.
fn has_over(items: &[Placed], innings: usize, number: u32) -> bool
    requires innings { innings ≤ PLACES }
    requires items { length items.now ≤ PLACES }
    ensures { result ≡ over.has_over innings number [] items.now }
{
    let mut count = Count::none();
    for index in 0..items.len() {
        let placed = &items[index];
        if count.is_in_over(innings, number) {
            return true;
        }
        count = count.after(&placed.item);
    }
    false
}

/// Prints the entries of an over of an innings.
fn print_lines<W: Sink, B: BookOf>(
    out: &mut Watched<W>,
    sheet: &MatchSheet,
    book: &B,
    innings: usize,
    number: u32,
) -> Result<(), WriteFailed>
    requires begun { innings < begun (history_of (B.content book.now)) }
    requires few { innings ≤ PLACES }
    ensures text { OnOk result (Prints W.contents out.old out.new
        (over.over_lines sheet.now (B.content book.now) innings number)) }
    ensures failed { TellsFailure result out.old out.new }
{
    let side = book.score().side(innings);
    let wanted = InningsOver {
        side,
        innings,
        number,
    };
    let items = book.clean_items();
    let mut crease = Crease::empty();
    let mut count = Count::none();
    for index in 0..items.len() {
        let placed = placed_at(items, index);
        let striker = crease.ends().striker;
        print_if(out, sheet, wanted, count, striker, placed)?;
        count = count.after(&placed.item);
        crease = crease_after(&crease, &placed.item);
    }
    Ok(())
}

/// Prints the entries of an over of an innings, or that there is no such over.
fn print_over<W: Sink, B: BookOf>(
    out: &mut Watched<W>,
    sheet: &MatchSheet,
    book: &B,
    innings: usize,
    number: u32,
) -> Result<(), WriteFailed>
    requires begun { innings < begun (history_of (B.content book.now)) }
    requires few { innings ≤ PLACES }
    ensures text { OnOk result (Prints W.contents out.old out.new
        (over.over_of sheet.now (B.content book.now) innings number)) }
    ensures failed { TellsFailure result out.old out.new }
{
    if has_over(book.clean_items(), innings, number) {
        print_lines(out, sheet, book, innings, number)
    } else {
        writeln!(out, "no such over")
    }
}

/// Prints the entries of an over of the innings begun last, or that there was no play.
pub fn print_over_last<W: Sink, B: BookOf>(
    out: &mut Watched<W>,
    sheet: &MatchSheet,
    book: &B,
    number: u32,
) -> Result<(), WriteFailed>
    ensures text { OnOk result (Prints W.contents out.old out.new
        (over.over_last sheet.now (B.content book.now) number)) }
    ensures failed { TellsFailure result out.old out.new }
{
    let begun = book.score().begun();
    if begun == 0 {
        return writeln!(out, "No play");
    }
    print_over(out, sheet, book, begun - 1, number)
}

/// Whether an innings has begun and this side bats in it.
fn is_of_side(score: &Match, side: Side, innings: usize) -> bool
    ensures value { ForEachHistory score.now (λ n h. result ≡ over.is_of_side h side innings) }
    ensures begun { result ≡ true → innings < begun_in score.now }
    ensures few { result ≡ true → innings ≤ PLACES }
{
    innings < score.begun() && score.side(innings) == side
}

/// Returns the side's first or second innings, by its number from 1, among these innings.
fn innings_among(score: &Match, side: Side, number: u8, innings: &[usize]) -> Option<usize>
    ensures value { ForEachHistory score.now (λ n h. result ≡ over.innings_among h side number innings.now) }
    ensures begun { IfSome result (λ i. i < begun_in score.now) }
    ensures few { IfSome result (λ i. i ≤ PLACES) }
{
    let (first, more) = innings.split_first()?;
    if !is_of_side(score, side, *first) {
        return innings_among(score, side, number, more);
    }
    if number == 1 {
        return Some(*first);
    }
    innings_among(score, side, number.saturating_sub(1), more)
}

/// Prints the entries of an over of a side's first or second innings, or that this hasn't begun.
pub fn print_over_by_side<W: Sink, B: BookOf>(
    out: &mut Watched<W>,
    sheet: &MatchSheet,
    book: &B,
    number: u32,
    side: Side,
    which: u8,
) -> Result<(), WriteFailed>
    ensures text { OnOk result (Prints W.contents out.old out.new
        (over.over_by_side sheet.now (B.content book.now) number side which)) }
    ensures failed { TellsFailure result out.old out.new }
{
    match innings_among(book.score(), side, which, &[0, 1, 2, 3]) {
        Some(innings) => print_over(out, sheet, book, innings, number),
        None => writeln!(out, "no such innings yet"),
    }
}
