//! The line shown where the outcome in a sheet's table `[info]` has another winner than the Laws, or another result where
//! nobody won.

ghost use Rattle.std.specs.Prelude.{◌≡◌, option_map, string_bytes, IfOk};
ghost use Rattle.cards.specs.Sheet.{name_of};
ghost use Rattle.toml.specs.View.{table_view};
ghost use Rattle.archive_deliveries.specs.Names.{told_apart};
ghost use Rattle.export.specs.Disagreement as laws;

use crate::given::info_or;
use crate::info::outcome_at;
use archive_deliveries::NamedSheet;
use cards::MatchSheet;
use corrections::BookOf;
use match_laws::Outcome;
use notation::Side;
use sheet_check::shown;
use std::alloc::{AllocError, Global};
use toml::Table;

/// Returns the side that has won by the Laws, where one has.
fn winner_of(outcome: Outcome) -> Option<Side>
    ensures { result ≡ laws.winner_of outcome }
{
    match outcome {
        Outcome::Runs(side, _)
        | Outcome::Wickets(side, _)
        | Outcome::InningsAnd(side, _)
        | Outcome::PenaltyRuns(side) => Some(side),
        Outcome::Undecided | Outcome::Draw | Outcome::Tie => None,
    }
}

/// Returns the winner's name, where there is a winner.
fn name_of<'a>(sheet: &'a NamedSheet<'_>, winner: Option<Side>) -> Option<&'a str>
    ensures { option_map (λ name. name.now) result ≡ option_map (name_of sheet.now) winner }
{
    match winner {
        Some(side) => Some(sheet.name(side)),
        None => None,
    }
}

/// Returns the Laws' result of a match that is over without a winner.
fn result_of(outcome: Outcome) -> Option<&'static str>
    ensures { option_map (λ word. word.now) result ≡ laws.result_of outcome }
{
    match outcome {
        Outcome::Draw => Some("draw"),
        Outcome::Tie => Some("tie"),
        Outcome::Undecided
        | Outcome::Runs(_, _)
        | Outcome::Wickets(_, _)
        | Outcome::InningsAnd(_, _)
        | Outcome::PenaltyRuns(_) => None,
    }
}

/// Whether a result without a winner can't be that of the Laws: "draw" or "no result" of a tied match, or "tie" of a drawn one.
fn contradicts(word: &str, outcome: Outcome) -> bool
    ensures { result ≡ laws.contradicts word.now outcome }
{
    match outcome {
        Outcome::Tie => word == "draw" || word == "no result",
        Outcome::Draw => word == "tie",
        Outcome::Undecided
        | Outcome::Runs(_, _)
        | Outcome::Wickets(_, _)
        | Outcome::InningsAnd(_, _)
        | Outcome::PenaltyRuns(_) => false,
    }
}

/// Whether the outcome says why it may differ from the Laws: it has a `method`, an `eliminator` or a `bowl_out`.
fn says_why(info: &Table) -> bool
    ensures { result ≡ laws.says_why (table_view info.now) }
{
    outcome_at(info, "method").is_some()
        || outcome_at(info, "eliminator").is_some()
        || outcome_at(info, "bowl_out").is_some()
}

/// Returns the text at a key of the outcome, where there is one.
fn outcome_text<'a>(info: &'a Table, key: &str) -> Option<&'a str>
    ensures { option_map (λ text. text.now) result ≡ laws.outcome_text key.now (table_view info.now) }
{
    match outcome_at(info, key) {
        Some(value) => value.as_str(),
        None => None,
    }
}

/// Whether two names are equal, or both are missing.
fn is_same(a: Option<&str>, b: Option<&str>) -> bool
    ensures { result ≡ laws.is_same (option_map (λ text. text.now) a.entry) (option_map (λ text. text.now) b.entry) }
{
    match (a, b) {
        (Some(a), Some(b)) => a == b,
        (None, None) => true,
        _ => false,
    }
}

/// Returns a winner's name as it is shown, or "no winner".
fn winner_words(alloc: Global, name: Option<&str>) -> Result<String, AllocError>
    ensures { IfOk result (λ words. string_bytes words ≡ laws.winner_words (option_map (λ text. text.now) name.entry)) }
{
    match name {
        Some(name) => shown(alloc, name),
        None => String::from_str(alloc, "no winner"),
    }
}

/// Returns the line that names the sheet's winner or result and the Laws', or an empty text where they are the same.
fn difference(alloc: Global, told: Option<&str>, winner: Option<&str>) -> Result<String, AllocError>
    ensures { IfOk result (λ words. string_bytes words
        ≡ laws.difference (option_map (λ text. text.now) told.entry) (option_map (λ text. text.now) winner.entry)) }
{
    if is_same(told, winner) {
        return Ok(String::new(alloc));
    }
    let told = winner_words(alloc, told)?;
    let winner = winner_words(alloc, winner)?;
    let mut words = String::from_str(alloc, "sheet: info.outcome says ")?;
    words.push_str(told.as_str())?;
    words.push_str(", the Laws say ")?;
    words.push_str(winner.as_str())?;
    words.push_str("\n")?;
    Ok(words)
}

/// Returns the line for a result without a winner, for the Laws' outcome and the name of its winner.
fn result_difference(
    alloc: Global,
    word: &str,
    outcome: Outcome,
    winner: Option<&str>,
) -> Result<String, AllocError>
    ensures { IfOk result (λ words. string_bytes words
        ≡ laws.result_difference word.now outcome (option_map (λ text. text.now) winner.entry)) }
{
    if contradicts(word, outcome) {
        return difference(alloc, Some(word), result_of(outcome));
    }
    difference(alloc, None, winner)
}

/// Returns the line for a sheet's `[info]`, for the Laws' outcome and the name of its winner. It is empty where the sheet's
/// outcome says why it may differ, or has neither a `winner` nor a `result`.
fn disagreement(
    alloc: Global,
    info: &Table,
    outcome: Outcome,
    winner: Option<&str>,
) -> Result<String, AllocError>
    ensures { IfOk result (λ words. string_bytes words
        ≡ laws.disagreement (table_view info.now) outcome (option_map (λ text. text.now) winner.entry)) }
{
    if says_why(info) {
        return Ok(String::new(alloc));
    }
    match (outcome_text(info, "winner"), outcome_text(info, "result")) {
        (Some(told), _) => difference(alloc, Some(told), winner),
        (None, Some(word)) => result_difference(alloc, word, outcome, winner),
        (None, None) => Ok(String::new(alloc)),
    }
}

/// Returns the line for a sheet's document and a book where the document's outcome has another winner than the Laws, or a
/// result that can't be theirs where nobody won, and gives no `method`, `eliminator` or `bowl_out`. It is empty otherwise.
pub fn disagreement_of<B: BookOf>(
    alloc: Global,
    sheet: &MatchSheet,
    document: &Table,
    book: &B,
) -> Result<String, AllocError>
    requires { B.innings_a_side book.now ≡ sheet.now.innings }
    ensures { IfOk result (λ words. string_bytes words
        ≡ laws.disagreement_of (told_apart sheet.now) (table_view document.now) (B.content book.now)) }
{
    let named = NamedSheet::new(alloc, sheet)?;
    let empty = Table::new(alloc);
    let info = info_or(document, &empty);
    let outcome = book.score().result();
    disagreement(alloc, info, outcome, name_of(&named, winner_of(outcome)))
}
