//! The fate of a batter, in words.

ghost use Rattle.std.specs.Prelude.{◌≡◌, ◌==◌, ◌++◌, Some, IfOk, string_bytes};
ghost use Rattle.match_laws.specs.declared.rows.Fate.TheVariants as Fates;
ghost use Rattle.cards.specs.Dismissals as cards;
ghost use Rattle.page.specs.Dismissals as words;
ghost use Rattle.page.specs.Escapes.{Puts, name_html};

use crate::escapes::put_name;
use archive_deliveries::NamedSheet;
use match_laws::Fate;
use notation::{How, Leave, Out, Player, Side};
use std::alloc::{AllocError, Global};

/// Returns the name of a fielder of the side: `-` if none is recorded, and `sub` for a substitute.
fn fielder_name<'a>(sheet: &'a NamedSheet<'_>, side: Side, fielder: u8) -> &'a str
    ensures { result.now ≡ cards.fielder_name sheet.now side fielder }
{
    if fielder == 0 {
        return "-";
    }
    match Player::new(fielder) {
        Some(player) => sheet.player(side, player),
        None => "sub",
    }
}

/// Writes words, and a name after them.
fn put_by(out: &mut String, words: &str, name: &str) -> Result<(), AllocError>
    ensures { Puts result out.old out.new (words.now ++ name_html name.now) }
{
    out.push_str(words)?;
    put_name(out, name)
}

/// Writes a dismissal by a fielder, off a bowler.
fn put_both(out: &mut String, how: &str, fielder: &str, bowler: &str) -> Result<(), AllocError>
    ensures { Puts result out.old out.new (words.both_html how.now fielder.now bowler.now) }
{
    put_by(out, how, fielder)?;
    put_by(out, " b ", bowler)
}

/// Writes a catch, which may be the bowler's own.
fn put_caught(out: &mut String, own: bool, fielder: &str, bowler: &str) -> Result<(), AllocError>
    ensures { Puts result out.old out.new (words.caught_html own fielder.now bowler.now) }
{
    if own {
        put_by(out, "c &amp; b ", bowler)
    } else {
        put_both(out, "c ", fielder, bowler)
    }
}

/// Writes that a batter was run out by a fielder.
fn put_run_out(out: &mut String, fielder: &str) -> Result<(), AllocError>
    ensures { Puts result out.old out.new (words.run_out_html fielder.now) }
{
    put_by(out, "run out (", fielder)?;
    out.push_str(")")
}

/// Writes how a batter was out off a delivery. `own` tells that the fielder is the bowler.
fn put_out(
    out: &mut String,
    how: How,
    own: bool,
    fielder: &str,
    bowler: &str,
) -> Result<(), AllocError>
    ensures { Puts result out.old out.new (words.out_html how own fielder.now bowler.now) }
{
    match how {
        How::Bowled => put_by(out, "b ", bowler),
        How::Caught => put_caught(out, own, fielder, bowler),
        How::Lbw => put_by(out, "lbw b ", bowler),
        How::Stumped => put_both(out, "st ", fielder, bowler),
        How::HitWicket => put_by(out, "hit wicket b ", bowler),
        How::HitTwice => out.push_str("hit the ball twice"),
        How::Obstructing => out.push_str("obstructing the field"),
        How::RunOut => put_run_out(out, fielder),
    }
}

/// Returns how a batter left between deliveries, in words.
pub fn left_words(way: Leave) -> &'static str
    ensures { result.now ≡ cards.left_text way }
{
    match way {
        Leave::TimedOut => "timed out",
        Leave::RetiredOut => "retired out",
        Leave::RetiredHurt => "retired not out",
        Leave::RunOut => "run out (-)",
    }
}

/// Writes how a batter was out off a delivery of this bowler. `side` is the fielding side.
fn put_dismissal(
    out: &mut String,
    sheet: &NamedSheet<'_>,
    side: Side,
    dismissal: Out,
    bowler: Player,
) -> Result<(), AllocError>
    ensures { Puts result out.old out.new (words.fate_html sheet.now side (Some (Fates.Out dismissal bowler))) }
{
    let own = dismissal.fielder == bowler.number();
    let fielder = fielder_name(sheet, side, dismissal.fielder);
    put_out(out, dismissal.how, own, fielder, sheet.player(side, bowler))
}

/// Writes the fate of a batter. `side` is the fielding side.
fn put_fate(
    out: &mut String,
    sheet: &NamedSheet<'_>,
    side: Side,
    fate: Fate,
) -> Result<(), AllocError>
    ensures { Puts result out.old out.new (words.fate_html sheet.now side (Some fate)) }
{
    match fate {
        Fate::NotOut => out.push_str("not out"),
        Fate::Hurt => out.push_str("retired not out"),
        Fate::Out(dismissal, bowler) => put_dismissal(out, sheet, side, dismissal, bowler),
        Fate::Left(way) => out.push_str(left_words(way)),
    }
}

/// Returns the fate of a batter, or nothing if he neither came in nor was timed out. `side` is the fielding side.
pub fn fate_of(
    alloc: Global,
    sheet: &NamedSheet<'_>,
    side: Side,
    fate: Option<Fate>,
) -> Result<String, AllocError>
    ensures { IfOk result (λ text. string_bytes text ≡ words.fate_html sheet.now side fate) }
{
    let mut out = String::new(alloc);
    if let Some(fate) = fate {
        put_fate(&mut out, sheet, side, fate)?;
    }
    Ok(out)
}
