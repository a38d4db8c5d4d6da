//! The partnerships of an innings.

ghost use Rattle.std.specs.Prelude.{◌≡◌, ◌+◌, ◌*◌, ◌<◌, ◌≤◌, ◌++◌, IfOk, OnOk, Some, length, slice_get, string_bytes};
ghost use Rattle.notation.specs.declared.entry.TheConstants.{PLACES};
ghost use Rattle.match_laws.specs.Figures.{faced_of};
ghost use Rattle.cards.specs.Columns.{lines_from};
ghost use Rattle.page.specs.Escapes.{Puts};
ghost use Rattle.page.specs.Stands as laws;

use crate::moments::{Moment, moment_at};
use cards::all_runs;
use notation::{Ball, Kind, Leave, Plain};
use std::alloc::{AllocError, Global};

/// The head of the table, with the names of its columns.
pub const HEADINGS: &str =
    "<table><caption>Partnerships (* unbroken)</caption><thead><tr><th scope='col'>Wicket</th>\
<th scope='col'><abbr title='runs'>R</abbr></th><th scope='col'><abbr title='balls'>B</abbr></th></tr></thead><tbody>\n";

/// The most items that a book can have, counting its end.
const MOST: usize = 8_193;

/// The runs since the last wicket, and the balls faced since.
#[derive(Clone, Copy)]
pub struct Stand {
    pub runs: u32,
    pub balls: u32,
}

/// A partnership, and whether a wicket ended it.
#[derive(Clone, Copy)]
pub struct Partnership {
    pub broken: bool,
    pub runs: u32,
    pub balls: u32,
}

/// Returns a stand of no runs and no balls.
fn no_stand() -> Stand
    ensures { result ≡ laws.no_stand }
{
    Stand { runs: 0, balls: 0 }
}

/// Returns how many balls a delivery counts as faced: 0 for a Wide, or else 1.
fn faced(ball: &Ball) -> u32
    ensures value { result ≡ faced_of ball.now }
    ensures bound { result ≤ 1 }
{
    match ball.kind {
        Kind::Wide => 0,
        Kind::Bat | Kind::Bye | Kind::Leg | Kind::Nb | Kind::NbBye | Kind::NbLeg => 1,
    }
}

/// Returns the stand with one more delivery.
fn stand_with(ball: &Ball, stand: &Stand) -> Stand
    requires runs { stand.now.runs ≤ 260 * PLACES }
    requires balls { stand.now.balls ≤ PLACES }
    ensures value { result ≡ laws.stand_with ball.now stand.now }
    ensures runs { result.runs ≤ stand.now.runs + 260 }
    ensures balls { result.balls ≤ stand.now.balls + 1 }
{
    Stand {
        runs: stand.runs + all_runs(ball),
        balls: stand.balls + faced(ball),
    }
}

/// Returns the stand after a delivery: a new one after a wicket.
fn stand_behind(ball: &Ball, stand: &Stand) -> Stand
    requires runs { stand.now.runs ≤ 260 * PLACES }
    requires balls { stand.now.balls ≤ PLACES }
    ensures value { result ≡ laws.stand_behind ball.now stand.now }
    ensures runs { result.runs ≤ stand.now.runs + 260 }
    ensures balls { result.balls ≤ stand.now.balls + 1 }
{
    if ball.out.is_some() {
        no_stand()
    } else {
        stand_with(ball, stand)
    }
}

/// Returns the stand after a batter leaves: a new one, unless he retired hurt and may come in again.
fn stand_left(how: Leave, stand: &Stand) -> Stand
    ensures value { result ≡ laws.stand_left how stand.now }
    ensures runs { result.runs ≤ stand.now.runs }
    ensures balls { result.balls ≤ stand.now.balls }
{
    match how {
        Leave::RetiredHurt => *stand,
        Leave::TimedOut | Leave::RetiredOut | Leave::RunOut => no_stand(),
    }
}

/// Returns the stand after an item.
fn stand_after(item: &Plain, stand: &Stand) -> Stand
    requires runs { stand.now.runs ≤ 260 * PLACES }
    requires balls { stand.now.balls ≤ PLACES }
    ensures value { result ≡ laws.stand_after item.now stand.now }
    ensures runs { result.runs ≤ stand.now.runs + 260 }
    ensures balls { result.balls ≤ stand.now.balls + 1 }
{
    match item {
        Plain::Ball(ball) => stand_behind(ball, stand),
        Plain::Gone(how, _) => stand_left(*how, stand),
        _ => *stand,
    }
}

fn ending(broken: bool, stand: &Stand) -> Partnership
    ensures { result ≡ laws.ending broken stand.now }
{
    Partnership {
        broken,
        runs: stand.runs,
        balls: stand.balls,
    }
}

/// Returns the partnership that a delivery ends, if a wicket falls off it.
fn ended_behind(ball: &Ball, stand: &Stand) -> Option<Partnership>
    requires runs { stand.now.runs ≤ 260 * PLACES }
    requires balls { stand.now.balls ≤ PLACES }
    ensures { result ≡ laws.ended_behind ball.now stand.now }
{
    if ball.out.is_some() {
        return Some(ending(true, &stand_with(ball, stand)));
    }
    None
}

/// Returns the partnership that ends as a batter leaves, unless he retired hurt.
fn ended_left(how: Leave, stand: &Stand) -> Option<Partnership>
    ensures { result ≡ laws.ended_left how stand.now }
{
    match how {
        Leave::RetiredHurt => None,
        Leave::TimedOut | Leave::RetiredOut | Leave::RunOut => Some(ending(true, stand)),
    }
}

/// Returns the unbroken partnership, unless it has no runs and no balls.
fn unbroken(stand: &Stand) -> Option<Partnership>
    ensures { result ≡ laws.unbroken stand.now }
{
    if stand.runs == 0 && stand.balls == 0 {
        return None;
    }
    Some(ending(false, stand))
}

/// Returns the partnership that an item ends, if it ends one.
fn ended(item: &Plain, stand: &Stand) -> Option<Partnership>
    requires runs { stand.now.runs ≤ 260 * PLACES }
    requires balls { stand.now.balls ≤ PLACES }
    ensures { result ≡ laws.ended item.now stand.now }
{
    match item {
        Plain::Ball(ball) => ended_behind(ball, stand),
        Plain::Gone(how, _) => ended_left(*how, stand),
        Plain::End(_) | Plain::Void => unbroken(stand),
        _ => None,
    }
}

/// Whether an item belongs to the innings, and the innings was open before it.
fn is_within(innings: usize, moment: &Moment) -> bool
    ensures { result ≡ laws.is_within innings moment.now }
{
    moment.innings == innings && moment.on
}

fn ended_in(innings: usize, moment: &Moment, stand: &Stand) -> Option<Partnership>
    requires runs { stand.now.runs ≤ 260 * PLACES }
    requires balls { stand.now.balls ≤ PLACES }
    ensures { result ≡ laws.ended_in innings moment.now stand.now }
{
    if is_within(innings, moment) {
        return ended(&moment.item, stand);
    }
    None
}

fn stand_in(innings: usize, moment: &Moment, stand: &Stand) -> Stand
    requires runs { stand.now.runs ≤ 260 * PLACES }
    requires balls { stand.now.balls ≤ PLACES }
    ensures value { result ≡ laws.stand_in innings moment.now stand.now }
    ensures runs { result.runs ≤ stand.now.runs + 260 }
    ensures balls { result.balls ≤ stand.now.balls + 1 }
{
    if is_within(innings, moment) {
        return stand_after(&moment.item, stand);
    }
    *stand
}

/// Adds a partnership to the list, if there is one.
fn keep(list: &mut Vec<Partnership>, ended: Option<Partnership>) -> Result<(), AllocError>
    ensures { OnOk result (list.new.items ≡ list.old.items ++ laws.in_list ended) }
{
    if let Some(one) = ended {
        list.push(one)?;
    }
    Ok(())
}

/// Returns the partnerships of an innings, from the items of the match.
fn partnerships(
    alloc: Global,
    innings: usize,
    moments: &[Moment],
) -> Result<Vec<Partnership>, AllocError>
    ensures { IfOk result (λ list. list.items ≡ laws.partnerships innings moments.now) }
{
    // No book is longer.
    if MOST < moments.len() {
        return Err(AllocError);
    }
    let mut list = Vec::new(alloc);
    let mut stand = no_stand();
    for index in 0..moments.len() {
        let moment = moment_at(moments, index);
        keep(&mut list, ended_in(innings, &moment, &stand))?;
        stand = stand_in(innings, &moment, &stand);
    }
    Ok(list)
}

fn star(broken: bool) -> &'static str
    ensures { result.now ≡ laws.star broken }
{
    if broken { "" } else { "*" }
}

/// Writes the row of a partnership, with its number.
fn put_figures(
    out: &mut String,
    number: usize,
    runs: u32,
    star: &str,
    balls: u32,
) -> Result<(), AllocError>
    ensures { Puts result out.old out.new (laws.figures_html number runs star.now balls) }
{
    writeln!(
        out,
        "<tr><th scope='row'>{number}</th><td>{runs}{star}</td><td>{balls}</td></tr>"
    )
}

fn put_row(out: &mut String, number: usize, one: &Partnership) -> Result<(), AllocError>
    ensures { Puts result out.old out.new (laws.row_html number one.now) }
{
    put_figures(out, number, one.runs, star(one.broken), one.balls)
}

/// Returns the partnership at an index.
fn partnership_at(list: &[Partnership], index: usize) -> Partnership
    requires { index < length list.now }
    ensures { slice_get list.now index ≡ Some result }
{
    list[index]
}

/// Returns the rows of these partnerships.
fn rows_of(alloc: Global, list: &[Partnership]) -> Result<String, AllocError>
    ensures { IfOk result (λ rows. string_bytes rows ≡ lines_from laws.row_html 1 list.now) }
{
    let mut out = String::new(alloc);
    for index in 0..list.len() {
        put_row(&mut out, index + 1, &partnership_at(list, index))?;
    }
    Ok(out)
}

/// Writes these rows as a table.
fn put_rows(out: &mut String, rows: &str) -> Result<(), AllocError>
    ensures { Puts result out.old out.new (laws.table_html rows.now) }
{
    out.push_str(HEADINGS)?;
    out.push_str(rows)?;
    out.push_str("</tbody></table>\n")
}

/// Writes the table, if there are any rows.
fn put_table(out: &mut String, rows: &str) -> Result<(), AllocError>
    ensures { Puts result out.old out.new (laws.in_table rows.now) }
{
    if rows.is_empty() {
        return Ok(());
    }
    put_rows(out, rows)
}

/// Writes the partnerships of an innings, from the items of the match.
pub fn put_partnerships(
    alloc: Global,
    out: &mut String,
    innings: usize,
    moments: &[Moment],
) -> Result<(), AllocError>
    ensures { Puts result out.old out.new (laws.partnerships_html innings moments.now) }
{
    let list = partnerships(alloc, innings, moments)?;
    let rows = rows_of(alloc, list.as_slice())?;
    put_table(out, rows.as_str())
}
