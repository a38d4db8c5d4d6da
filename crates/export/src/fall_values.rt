//! The falls of wickets.

ghost use Rattle.std.specs.Prelude.{◌≡◌, ◌<◌, ◌∷◌, [], codes, slice_get};
ghost use Rattle.match_laws.specs.Figures as figures;
ghost use Rattle.match_laws.specs.History.{begun, side_of};
ghost use Rattle.match_laws.specs.Stands.{ForEachHistory, begun_in};
ghost use Rattle.falls.specs.Falls.{falls_at};
ghost use Rattle.json_fields.specs.Values.{PutsFields, PutsValues, number_field, up_to};
ghost use Rattle.export.specs.Falls as laws;

use archive_deliveries::NamedSheet;
use falls::{FallAt, falls_in, over_and_ball};
use json::Pretty;
use json_fields::{begin_array, begin_object, end_array, end_object, put_figure, put_text};
use match_laws::{Fall, Match};
use notation::{Player, Side};
use std::alloc::{AllocError, Global};

/// Returns the fall at an index, where there is one.
fn fall_there(there: &[FallAt], index: usize) -> Option<FallAt>
    ensures { result ≡ slice_get there.now index }
{
    there.get(index).copied()
}

/// Puts the over and the ball of a fall, where they are known.
fn put_overs(alloc: Global, out: &mut Pretty, at: Option<FallAt>) -> Result<(), AllocError>
    ensures { PutsFields result out.old out.new (laws.overs_fields at) }
{
    let Some(at) = at else {
        return Ok(());
    };
    let text = over_and_ball(alloc, at)?;
    put_text(out, "overs", text.as_str())
}

/// Puts the number of the player who is out.
fn put_player(out: &mut Pretty, player: Player) -> Result<(), AllocError>
    ensures { PutsFields result out.old out.new (number_field (codes "player") player ∷ []) }
{
    put_figure(out, "player", u32::from(player.number()))
}

/// An innings whose falls are put: the match's sheet, the batting side, the innings' number from 0, and where its wickets fell.
#[derive(Clone, Copy)]
struct InningsFalls<'m> {
    sheet: &'m NamedSheet<'m>,
    side: Side,
    index: usize,
    there: &'m [FallAt],
}

/// Puts a fall of an innings, by its index from 0.
fn put_fall(
    alloc: Global,
    out: &mut Pretty,
    innings: InningsFalls<'_>,
    index: usize,
    fall: &Fall,
) -> Result<(), AllocError>
    requires innings { innings.index < 4 }
    requires index { index < 10 }
    ensures { PutsValues result out.old out.new
        (laws.fall_value innings.entry.sheet.now innings.entry.side innings.entry.index innings.entry.there.now index fall.now ∷ []) }
{
    let InningsFalls { sheet, side, .. } = innings;
    begin_object(out)?;
    put_figure(out, "innings", innings.index as u32 + 1)?;
    put_figure(out, "wicket", index as u32 + 1)?;
    put_figure(out, "runs", fall.total)?;
    put_overs(alloc, out, fall_there(innings.there, index))?;
    put_player(out, fall.player)?;
    put_text(out, "player_out", sheet.player(side, fall.player))?;
    end_object(out)
}

/// Puts each fall of an innings, by where its wickets fell.
fn put_each(
    alloc: Global,
    out: &mut Pretty,
    sheet: &NamedSheet<'_>,
    score: &Match,
    innings: usize,
    there: &[FallAt],
) -> Result<(), AllocError>
    requires begun { innings < begun_in score.now }
    requires innings { innings < 4 }
    ensures { ForEachHistory score.now (λ n h. PutsValues result out.old out.new
        (laws.falls_from (laws.fall_value sheet.now (side_of h innings) innings there.now) 0 (figures.falls h innings))) }
{
    let side = score.side(innings);
    let own = InningsFalls {
        sheet,
        side,
        index: innings,
        there,
    };
    let falls = score.falls(innings);
    for (index, place) in falls.iter().enumerate() {
        if let Some(fall) = place {
            put_fall(alloc, out, own, index, fall)?;
        }
    }
    Ok(())
}

/// Puts the falls of an innings, by where the wickets of all innings fell.
fn put_innings_falls(
    alloc: Global,
    out: &mut Pretty,
    sheet: &NamedSheet<'_>,
    score: &Match,
    falls: &[FallAt],
    innings: usize,
) -> Result<(), AllocError>
    requires begun { innings < begun_in score.now }
    requires innings { innings < 4 }
    ensures { ForEachHistory score.now (λ n h. falls.now ≡ falls_at h →
        PutsValues result out.old out.new (laws.falls_of sheet.now h innings)) }
{
    let there = falls_in(alloc, innings + 1, falls)?;
    put_each(alloc, out, sheet, score, innings, there.as_slice())
}

/// Puts the falls of all innings that have begun, by where the wickets fell.
fn put_all(
    alloc: Global,
    out: &mut Pretty,
    sheet: &NamedSheet<'_>,
    score: &Match,
    falls: &[FallAt],
) -> Result<(), AllocError>
    ensures { ForEachHistory score.now (λ n h. falls.now ≡ falls_at h →
        PutsValues result out.old out.new (up_to (laws.falls_of sheet.now h) (begun h))) }
{
    for innings in 0..score.begun() {
        put_innings_falls(alloc, out, sheet, score, falls, innings)?;
    }
    Ok(())
}

/// Puts the field `falls`: the falls of all innings that have begun, by where the wickets fell.
pub fn put_falls(
    alloc: Global,
    out: &mut Pretty,
    sheet: &NamedSheet<'_>,
    score: &Match,
    falls: &[FallAt],
) -> Result<(), AllocError>
    ensures { ForEachHistory score.now (λ n h. falls.now ≡ falls_at h →
        PutsFields result out.old out.new (laws.falls_field sheet.now h ∷ [])) }
{
    begin_array(out, "falls")?;
    put_all(alloc, out, sheet, score, falls)?;
    end_array(out)
}
