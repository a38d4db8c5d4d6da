//! The export's `info`: facts about the match.

ghost use Rattle.std.specs.Prelude.{◌≡◌, ◌+◌, ◌<◌, ◌∷◌, [], codes, is_some, List, OnOk, option_map};
ghost use Rattle.ball_laws.specs.History.{History};
ghost use Rattle.match_laws.specs.Stands.{StandsFor};
ghost use Rattle.toml.specs.Data.{get_member};
ghost use Rattle.toml.specs.View.{table_view, view};
ghost use Rattle.json_fields.specs.Values.{Field, PutsFields, PutsValues};
ghost use Rattle.export.specs.Given.{AreFieldsOf, others};
ghost use Rattle.export.specs.inner.Putting.{PutsInfo};
ghost use Rattle.export.specs.Info as laws;

use crate::given::{put_given, table_in};
use archive_deliveries::NamedSheet;
use json::Pretty;
use json_fields::{
    begin_array, begin_field, end_array, end_object, put_figure, put_string, put_text,
};
use match_laws::{Match, Outcome};
use notation::{Player, Side};
use std::alloc::{AllocError, Global};
use toml::{Table, Value};

/// Whether the sheet's table `[info]` has an event.
pub fn has_event(info: &Table) -> bool
    ensures { result ≡ is_some (get_member (codes "event") (table_view info.now)) }
{
    info.get("event").is_some()
}

/// Puts the title as the event.
fn put_event(out: &mut Pretty, sheet: &NamedSheet<'_>) -> Result<(), AllocError>
    ensures { PutsFields result out.old out.new (laws.event_field sheet.now ∷ []) }
{
    begin_field(out, "event")?;
    put_text(out, "name", sheet.title())?;
    end_object(out)
}

/// Puts the title as the event, unless `[info]` has one.
fn put_title(out: &mut Pretty, sheet: &NamedSheet<'_>, info: &Table) -> Result<(), AllocError>
    ensures { (given : List Field) → AreFieldsOf (others (table_view info.now)) given
        → PutsFields result out.old out.new (laws.event_fields sheet.now given) }
{
    if has_event(info) {
        return Ok(());
    }
    put_event(out, sheet)
}

/// Whether the sheet's table `[info]` has overs.
fn has_overs(info: &Table) -> bool
    ensures { result ≡ is_some (get_member (codes "overs") (table_view info.now)) }
{
    info.get("overs").is_some()
}

/// Puts how many overs an innings has, where they are limited.
pub fn put_overs_told(out: &mut Pretty, overs: Option<u16>) -> Result<(), AllocError>
    ensures { PutsFields result out.old out.new (laws.overs_told overs) }
{
    match overs {
        None => Ok(()),
        Some(overs) => put_figure(out, "overs", u32::from(overs)),
    }
}

/// Puts how many overs the first innings has, where they are limited, unless `[info]` has overs.
fn put_overs_of(out: &mut Pretty, sheet: &NamedSheet<'_>, info: &Table) -> Result<(), AllocError>
    ensures { (given : List Field) → AreFieldsOf (others (table_view info.now)) given
        → PutsFields result out.old out.new (laws.overs_fields sheet.now given) }
{
    if has_overs(info) {
        return Ok(());
    }
    put_overs_told(out, sheet.limits().overs_for(0))
}

/// Puts the event and the overs.
fn put_head(out: &mut Pretty, sheet: &NamedSheet<'_>, info: &Table) -> Result<(), AllocError>
    ensures { (given : List Field) → AreFieldsOf (others (table_view info.now)) given
        → PutsFields result out.old out.new (laws.head_fields sheet.now given) }
{
    put_title(out, sheet, info)?;
    put_overs_of(out, sheet, info)
}

/// Puts the names of both sides.
fn put_sides(out: &mut Pretty, sheet: &NamedSheet<'_>) -> Result<(), AllocError>
    ensures { PutsValues result out.old out.new (laws.sides_of sheet.now) }
{
    put_string(out, sheet.name(Side::Home))?;
    put_string(out, sheet.name(Side::Away))
}

fn put_teams(out: &mut Pretty, sheet: &NamedSheet<'_>) -> Result<(), AllocError>
    ensures { PutsFields result out.old out.new (laws.teams_field sheet.now ∷ []) }
{
    begin_array(out, "teams")?;
    put_sides(out, sheet)?;
    end_array(out)
}

/// The player at an index, from 0 to 10.
fn player_at(index: u8) -> Player
    requires { index < 11 }
    ensures { result ≡ index + 1 }
{
    Player::new(index + 1).unwrap()
}

/// Puts the names of a side's players.
fn put_names(out: &mut Pretty, sheet: &NamedSheet<'_>, side: Side) -> Result<(), AllocError>
    ensures { PutsValues result out.old out.new (laws.names_of sheet.now side) }
{
    for index in 0..11 {
        put_string(out, sheet.player(side, player_at(index)))?;
    }
    Ok(())
}

/// Puts a side's name with the names of its players.
fn put_team(out: &mut Pretty, sheet: &NamedSheet<'_>, side: Side) -> Result<(), AllocError>
    ensures { PutsFields result out.old out.new (laws.team_field sheet.now side ∷ []) }
{
    begin_array(out, sheet.name(side))?;
    put_names(out, sheet, side)?;
    end_array(out)
}

/// Puts both sides with their players.
fn put_players(out: &mut Pretty, sheet: &NamedSheet<'_>) -> Result<(), AllocError>
    ensures { PutsFields result out.old out.new (laws.players_field sheet.now ∷ []) }
{
    begin_field(out, "players")?;
    put_team(out, sheet, Side::Home)?;
    put_team(out, sheet, Side::Away)?;
    end_object(out)
}

/// Puts the margin of a win, in runs or wickets.
fn put_margin(out: &mut Pretty, unit: &str, count: u32) -> Result<(), AllocError>
    ensures { PutsFields result out.old out.new (laws.margin_field unit.now count ∷ []) }
{
    begin_field(out, "by")?;
    put_figure(out, unit, count)?;
    end_object(out)
}

/// Puts the margin of a win by an innings and this many runs.
fn put_innings_margin(out: &mut Pretty, runs: u32) -> Result<(), AllocError>
    ensures { PutsFields result out.old out.new (laws.innings_margin runs ∷ []) }
{
    begin_field(out, "by")?;
    put_figure(out, "runs", runs)?;
    put_figure(out, "innings", 1)?;
    end_object(out)
}

/// Puts that a side has won by this many runs or wickets.
fn put_win(
    out: &mut Pretty,
    sheet: &NamedSheet<'_>,
    side: Side,
    unit: &str,
    count: u32,
) -> Result<(), AllocError>
    ensures { PutsFields result out.old out.new
        (laws.win_field sheet.now side (laws.margin_field unit.now count) ∷ []) }
{
    begin_field(out, "outcome")?;
    put_text(out, "winner", sheet.name(side))?;
    put_margin(out, unit, count)?;
    end_object(out)
}

/// Puts that a side has won by an innings and this many runs.
fn put_innings_win(
    out: &mut Pretty,
    sheet: &NamedSheet<'_>,
    side: Side,
    runs: u32,
) -> Result<(), AllocError>
    ensures { PutsFields result out.old out.new
        (laws.win_field sheet.now side (laws.innings_margin runs) ∷ []) }
{
    begin_field(out, "outcome")?;
    put_text(out, "winner", sheet.name(side))?;
    put_innings_margin(out, runs)?;
    end_object(out)
}

/// Puts that a side has won by a method instead of by runs or wickets.
fn put_method_win(
    out: &mut Pretty,
    sheet: &NamedSheet<'_>,
    side: Side,
    method: &str,
) -> Result<(), AllocError>
    ensures { PutsFields result out.old out.new
        (laws.win_field sheet.now side (laws.method_field method.now) ∷ []) }
{
    begin_field(out, "outcome")?;
    put_text(out, "winner", sheet.name(side))?;
    put_text(out, "method", method)?;
    end_object(out)
}

/// Puts a result without a winner.
fn put_result(out: &mut Pretty, word: &str) -> Result<(), AllocError>
    ensures { PutsFields result out.old out.new (laws.result_field word.now ∷ []) }
{
    begin_field(out, "outcome")?;
    put_text(out, "result", word)?;
    end_object(out)
}

/// Whether a TOML value is this text.
fn is_text(value: Option<&Value>, word: &str) -> bool
    ensures { result ≡ laws.is_text word.now (option_map (λ value. view value.now) value.entry) }
{
    match value {
        Some(Value::String(text)) => text.as_str() == word,
        _ => false,
    }
}

/// Returns the value at a key of the outcome in the sheet's table `[info]`.
pub fn outcome_at<'a>(info: &'a Table, key: &str) -> Option<&'a Value>
    ensures { option_map (λ value. view value.now) result ≡ laws.outcome_at key.now (table_view info.now) }
{
    match table_in(info, "outcome") {
        Some(outcome) => outcome.get(key),
        None => None,
    }
}

/// Whether the outcome in the sheet's table `[info]` has the result "no result".
fn has_no_result(info: &Table) -> bool
    ensures { result ≡ laws.has_no_result (table_view info.now) }
{
    is_text(outcome_at(info, "result"), "no result")
}

/// Returns the result of a match that was closed before it was decided: a draw, unless the sheet says "no result".
fn closed_word(info: &Table) -> &'static str
    ensures { result.now ≡ laws.closed_word (table_view info.now) }
{
    if has_no_result(info) {
        "no result"
    } else {
        "draw"
    }
}

/// Puts the result of a match, where it has one.
fn put_outcome(
    out: &mut Pretty,
    sheet: &NamedSheet<'_>,
    info: &Table,
    outcome: Outcome,
) -> Result<(), AllocError>
    ensures { PutsFields result out.old out.new (laws.outcome_fields sheet.now (table_view info.now) outcome) }
{
    match outcome {
        Outcome::Undecided => Ok(()),
        Outcome::Draw => put_result(out, closed_word(info)),
        Outcome::Tie => put_result(out, "tie"),
        Outcome::Runs(side, count) => put_win(out, sheet, side, "runs", count),
        Outcome::Wickets(side, count) => put_win(out, sheet, side, "wickets", count),
        Outcome::InningsAnd(side, runs) => put_innings_win(out, sheet, side, runs),
        Outcome::PenaltyRuns(side) => put_method_win(out, sheet, side, "penalty runs"),
    }
}

/// Puts the field `info`: facts about the match, and what is copied from the sheet's table `[info]`.
pub fn put_info(
    alloc: Global,
    out: &mut Pretty,
    sheet: &NamedSheet<'_>,
    info: &Table,
    score: &Match,
) -> Result<(), AllocError>
    ensures { (h : History) → StandsFor score.now sheet.now.innings h
        → OnOk result (PutsInfo sheet.now h (table_view info.now) out.old out.new) }
{
    begin_field(out, "info")?;
    put_head(out, sheet, info)?;
    put_teams(out, sheet)?;
    put_players(out, sheet)?;
    put_figure(out, "balls_per_over", 6)?;
    put_outcome(out, sheet, info, score.result())?;
    put_given(alloc, out, info)?;
    end_object(out)
}
