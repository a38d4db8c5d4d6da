//! The current state of play.

ghost use Rattle.std.specs.Prelude.{◌≡◌, ◌∷◌, [], codes, reverse, string_bytes};
ghost use Rattle.match_laws.specs.Stands.{ForEachHistory};
ghost use Rattle.corrections.specs.Overs.{AreOversOf, balls_of};
ghost use Rattle.json_fields.specs.Values.{PutsFields};
ghost use Rattle.scoreboard.specs.Limited as limited;
ghost use Rattle.scoreboard.specs.Now as laws;
ghost use Rattle.scoreboard.specs.Stand.{partnership_now};

use crate::limited::{put_figure_or_null, put_situation};
use crate::marks::put_marks;
use crate::situation::Situation;
use crate::stand::{Partnership, put_partnership};
use cards::{MatchSheet, result_text};
use corrections::{Overs, Placed};
use json_fields::{
    Compact, begin_array, begin_field, end_array, end_object, put_figure, put_null, put_text,
};
use limits::runs_needed;
use match_laws::Match;
use notation::Player;
use std::alloc::{AllocError, Global};

/// Puts a player's number, or null if there is none.
fn put_player(out: &mut Compact, name: &str, player: Option<Player>) -> Result<(), AllocError>
    ensures { PutsFields result out.old out.new ((name.now, limited.number_or_null player) ∷ []) }
{
    match player {
        Some(player) => put_figure(out, name, u32::from(player.number())),
        None => put_null(out, name),
    }
}

/// Puts the batters and the bowler.
fn put_players(out: &mut Compact, score: &Match, overs: &Overs<'_>) -> Result<(), AllocError>
    ensures { ForEachHistory score.now (λ n h. AreOversOf overs.now h →
        PutsFields result out.old out.new (laws.players_fields h)) }
{
    let ends = score.ends();
    put_player(out, "striker", ends.striker)?;
    put_player(out, "other", ends.other)?;
    put_player(out, "bowler", overs.bowler())
}

/// Puts the deliveries of an over.
fn put_over(out: &mut Compact, alloc: Global, name: &str, over: &[Placed]) -> Result<(), AllocError>
    ensures { PutsFields result out.old out.new ((name.now, laws.over_value (reverse (balls_of over.now))) ∷ []) }
{
    begin_array(out, name)?;
    put_marks(out, alloc, over)?;
    end_array(out)
}

/// Puts this over and the last one.
fn put_overs(out: &mut Compact, alloc: Global, overs: &Overs<'_>) -> Result<(), AllocError>
    ensures { PutsFields result out.old out.new
        (laws.overs_fields (reverse (balls_of (overs.now.this).now)) (reverse (balls_of (overs.now.last).now))) }
{
    put_over(out, alloc, "this_over", overs.this)?;
    put_over(out, alloc, "last_over", overs.last)
}

/// Puts the result, or null if there is none.
fn put_result(
    out: &mut Compact,
    alloc: Global,
    sheet: &MatchSheet,
    score: &Match,
) -> Result<(), AllocError>
    ensures { ForEachHistory score.now (λ n h.
        PutsFields result out.old out.new (laws.result_field sheet.now n h ∷ [])) }
{
    match result_text(alloc, sheet, score.result())? {
        Some(text) => put_text(out, "result", text.as_str()),
        None => put_null(out, "result"),
    }
}

/// Puts the target, the runs needed, and the result.
fn put_aim(
    out: &mut Compact,
    alloc: Global,
    sheet: &MatchSheet,
    score: &Match,
) -> Result<(), AllocError>
    ensures { ForEachHistory score.now (λ n h.
        PutsFields result out.old out.new (laws.result_fields sheet.now n h)) }
{
    put_figure_or_null(out, "target", score.target())?;
    put_figure_or_null(out, "needs", runs_needed(score))?;
    put_result(out, alloc, sheet, score)
}

/// Puts the current state of play.
pub fn put_now(
    out: &mut Compact,
    alloc: Global,
    sheet: &MatchSheet,
    score: &Match,
    overs: &Overs<'_>,
    situation: &Situation,
    partnership: Option<Partnership>,
) -> Result<(), AllocError>
    ensures { ForEachHistory score.now (λ n h. AreOversOf overs.now h → situation.now ≡ limited.situation_of sheet.now n h →
        partnership ≡ partnership_now h → PutsFields result out.old out.new ((codes "now", laws.now_value sheet.now n h) ∷ [])) }
{
    begin_field(out, "now")?;
    put_players(out, score, overs)?;
    put_overs(out, alloc, overs)?;
    put_aim(out, alloc, sheet, score)?;
    put_situation(out, alloc, situation)?;
    put_partnership(out, partnership)?;
    end_object(out)
}
