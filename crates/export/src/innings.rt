//! An innings: its overs, and how it ended.

ghost use Rattle.std.specs.Prelude.{◌≡◌, ◌<◌, ◌≤◌, ◌∷◌, [], IfOk, codes, filter, nat_lt};
ghost use Rattle.match_laws.specs.Stands.{ForEachHistory, begun_in};
ghost use Rattle.json_fields.specs.Values.{PutsFields, PutsValues, array_of};
ghost use Rattle.export.specs.Innings as laws;
ghost use Rattle.archive_deliveries.specs.Innings.{of};
ghost use Rattle.archive_deliveries.specs.Notes.{begun_of, items_in};

use crate::info::put_overs_told;
use crate::overs::put_overs;
use crate::powerplays::put_powerplays;
use archive_deliveries::{
    Begun, NamedInnings, NamedSheet, Noted, carried, items_in, noted_at, penalties, plus,
    put_awarded, put_miscounts,
};
use json::Pretty;
use json_fields::{
    begin_array, begin_field, begin_object, end_array, end_object, put_figure, put_flag, put_text,
};
use match_laws::{Match, opponent};
use notation::{Cause, Plain};
use std::alloc::{AllocError, Global};

fn is_declaration(item: &Plain) -> bool
    ensures { result ≡ laws.is_declaration item.now }
{
    matches!(item, Plain::End(Cause::Declared))
}

fn is_forfeiture(item: &Plain) -> bool
    ensures { result ≡ laws.is_forfeiture item.now }
{
    matches!(item, Plain::End(Cause::Forfeited))
}

/// Whether the captain's declaration is among these items.
fn is_declared(items: &[Noted]) -> bool
    ensures { result ≡ laws.is_declared items.now }
{
    items.iter().any(|noted| is_declaration(&noted.item))
}

/// Whether the captain's forfeiture is among these items.
fn is_forfeited(items: &[Noted]) -> bool
    ensures { result ≡ laws.is_forfeited items.now }
{
    items.iter().any(|noted| is_forfeiture(&noted.item))
}

/// Returns the items of all earlier innings.
fn items_before(alloc: Global, innings: usize, notes: &[Noted]) -> Result<Vec<Noted>, AllocError>
    ensures { IfOk result (λ items. items.items ≡ filter (λ x. nat_lt x.innings innings) notes.now) }
{
    let mut items = Vec::new(alloc);
    for index in 0..notes.len() {
        let noted = noted_at(notes, index);
        if noted.innings < innings {
            items.push(noted)?;
        }
    }
    Ok(items)
}

/// Returns the items of all later innings.
fn items_after(alloc: Global, innings: usize, notes: &[Noted]) -> Result<Vec<Noted>, AllocError>
    ensures { IfOk result (λ items. items.items ≡ filter (λ x. nat_lt innings x.innings) notes.now) }
{
    let mut items = Vec::new(alloc);
    for index in 0..notes.len() {
        let noted = noted_at(notes, index);
        if innings < noted.innings {
            items.push(noted)?;
        }
    }
    Ok(items)
}

/// Returns the penalty runs that count in an innings and were awarded before its first delivery. `items` are the items of
/// the innings, and `notes` those of all innings.
pub fn runs_before(
    alloc: Global,
    begun: &Begun,
    innings: usize,
    items: &[Noted],
    notes: &[Noted],
) -> Result<u64, AllocError>
    requires { items.now ≡ items_in innings notes.now }
    ensures { IfOk result (λ runs. runs ≡ laws.runs_before begun.now innings notes.now) }
{
    let first = carried(alloc, items, 0)?;
    let own = penalties(begun, innings, first.as_slice())?;
    let earlier = items_before(alloc, innings, notes)?;
    plus(penalties(begun, innings, earlier.as_slice())?, own)
}

/// Returns the penalty runs that count in an innings and were awarded after a later innings had begun.
pub fn runs_after(
    alloc: Global,
    begun: &Begun,
    innings: usize,
    notes: &[Noted],
) -> Result<u64, AllocError>
    ensures { IfOk result (λ runs. runs ≡ laws.runs_after begun.now innings notes.now) }
{
    let later = items_after(alloc, innings, notes)?;
    penalties(begun, innings, later.as_slice())
}

/// Puts the penalty runs that no delivery carries.
fn put_penalty(out: &mut Pretty, before: u64, after: u64) -> Result<(), AllocError>
    ensures { PutsFields result out.old out.new (laws.penalty_field before after ∷ []) }
{
    begin_field(out, "penalty_runs")?;
    put_awarded(out, "pre", before)?;
    put_awarded(out, "post", after)?;
    end_object(out)
}

/// Puts the penalty runs that no delivery carries, where there are any.
fn put_penalties(out: &mut Pretty, before: u64, after: u64) -> Result<(), AllocError>
    ensures { PutsFields result out.old out.new (laws.penalty_fields before after) }
{
    if plus(before, after)? == 0 {
        return Ok(());
    }
    put_penalty(out, before, after)
}

/// Returns the runs that the batting side needs in an innings to win.
fn needed_in(score: &Match, innings: usize) -> u32
    requires { innings < begun_in score.now }
    ensures { ForEachHistory score.now (λ n h. result ≡ laws.needed_in h innings) }
{
    let side = score.side(innings);
    let before = score.side_total(side).saturating_sub(score.total(innings));
    (score.side_total(opponent(side)) + 1).saturating_sub(before)
}

/// Puts the target: the runs needed, and in how many overs where they are limited.
fn put_target_field(
    out: &mut Pretty,
    sheet: &NamedSheet<'_>,
    score: &Match,
    innings: usize,
) -> Result<(), AllocError>
    requires { innings < begun_in score.now }
    ensures { ForEachHistory score.now (λ n h.
        PutsFields result out.old out.new (laws.target_field sheet.now h innings ∷ [])) }
{
    begin_field(out, "target")?;
    put_figure(out, "runs", needed_in(score, innings))?;
    put_overs_told(out, sheet.limits().overs_for(innings))?;
    end_object(out)
}

/// Puts the target, where this is the last innings of the match.
fn put_target(
    out: &mut Pretty,
    sheet: &NamedSheet<'_>,
    score: &Match,
    innings: usize,
) -> Result<(), AllocError>
    requires { innings < begun_in score.now }
    ensures { ForEachHistory score.now (λ n h.
        PutsFields result out.old out.new (laws.target_fields sheet.now h innings)) }
{
    let begun = score.begun();
    prove!(innings < begun);
    if innings as u32 + 1 != 2 * sheet.innings() {
        return Ok(());
    }
    put_target_field(out, sheet, score, innings)
}

/// An innings by its number from 0, its items, and the items of all innings.
#[derive(Clone, Copy)]
struct InningsItems<'m> {
    innings: usize,
    items: &'m [Noted],
    notes: &'m [Noted],
}

/// Puts what an innings has besides its overs: penalty runs, how it ended, target, powerplays and miscounted overs.
fn put_rest(
    alloc: Global,
    out: &mut Pretty,
    sheet: &NamedSheet<'_>,
    score: &Match,
    begun: &Begun,
    own: InningsItems<'_>,
) -> Result<(), AllocError>
    requires innings { own.innings < begun_in score.now }
    requires items { own.items.now ≡ items_in own.innings own.notes.now }
    ensures { ForEachHistory score.now (λ n h. begun.now ≡ begun_of h
        → PutsFields result out.old out.new (laws.rest_fields sheet.now h own.entry.notes.now own.entry.innings)) }
{
    let InningsItems {
        innings,
        items,
        notes,
    } = own;
    let before = runs_before(alloc, begun, innings, items, notes)?;
    let after = runs_after(alloc, begun, innings, notes)?;
    put_penalties(out, before, after)?;
    put_flag(out, "declared", is_declared(items))?;
    put_flag(out, "forfeited", is_forfeited(items))?;
    put_target(out, sheet, score, innings)?;
    put_powerplays(alloc, out, sheet.limits().powerplays())?;
    put_miscounts(out, items)
}

/// Puts the field of an innings' overs, by its items.
fn put_overs_field(
    alloc: Global,
    out: &mut Pretty,
    innings: NamedInnings<'_>,
    items: &[Noted],
) -> Result<(), AllocError>
    ensures { PutsFields result out.old out.new
        ((codes "overs", array_of (of innings.entry laws.overs_of items.now)) ∷ []) }
{
    begin_array(out, "overs")?;
    put_overs(alloc, out, innings, items)?;
    end_array(out)
}

/// Puts an innings: its team, its overs, and the rest.
fn put_innings(
    alloc: Global,
    out: &mut Pretty,
    sheet: &NamedSheet<'_>,
    score: &Match,
    begun: &Begun,
    own: InningsItems<'_>,
) -> Result<(), AllocError>
    requires innings { own.innings < begun_in score.now }
    requires items { own.items.now ≡ items_in own.innings own.notes.now }
    ensures { ForEachHistory score.now (λ n h. begun.now ≡ begun_of h
        → PutsValues result out.old out.new (laws.innings_of sheet.now h own.entry.notes.now own.entry.innings ∷ [])) }
{
    let side = score.side(own.innings);
    let named = NamedInnings {
        sheet,
        side,
        begun,
        index: own.innings,
    };
    begin_object(out)?;
    put_text(out, "team", sheet.name(side))?;
    put_overs_field(alloc, out, named, own.items)?;
    put_rest(alloc, out, sheet, score, begun, own)?;
    end_object(out)
}

/// Puts each innings that has begun.
fn put_each(
    alloc: Global,
    out: &mut Pretty,
    sheet: &NamedSheet<'_>,
    score: &Match,
    begun: &Begun,
    notes: &[Noted],
) -> Result<(), AllocError>
    ensures { ForEachHistory score.now (λ n h. begun.now ≡ begun_of h
        → PutsValues result out.old out.new (laws.all_innings sheet.now h notes.now)) }
{
    for innings in 0..score.begun() {
        let items = items_in(alloc, innings, notes)?;
        let own = InningsItems {
            innings,
            items: items.as_slice(),
            notes,
        };
        put_innings(alloc, out, sheet, score, begun, own)?;
    }
    Ok(())
}

/// Puts the field of all innings that have begun.
pub fn put_all_innings(
    alloc: Global,
    out: &mut Pretty,
    sheet: &NamedSheet<'_>,
    score: &Match,
    begun: &Begun,
    notes: &[Noted],
) -> Result<(), AllocError>
    ensures { ForEachHistory score.now (λ n h. begun.now ≡ begun_of h
        → PutsFields result out.old out.new (laws.innings_field sheet.now h notes.now ∷ [])) }
{
    begin_array(out, "innings")?;
    put_each(alloc, out, sheet, score, begun, notes)?;
    end_array(out)
}
