//! The page of a match.

ghost use Rattle.std.specs.Prelude.{◌≡◌, [], IfOk, string_bytes};
ghost use Rattle.corrections.specs.CleanList.{clean, history_of};
ghost use Rattle.match_laws.specs.Stands.{ForEachHistory};
ghost use Rattle.toml.specs.View.{table_view};
ghost use Rattle.falls.specs.Falls.{falls_at};
ghost use Rattle.archive_deliveries.specs.Names.{told_apart};
ghost use Rattle.page.specs.Charts.{course_html};
ghost use Rattle.page.specs.Escapes as html;
ghost use Rattle.page.specs.Escapes.{Puts};
ghost use Rattle.page.specs.Moments.{moments};
ghost use Rattle.page.specs.Page as page;
ghost use Rattle.page.specs.Ruled.{ruled_text};
ghost use Rattle.page.specs.Title.{or_words, title_text};

use crate::book_part::put_book;
use crate::charts::put_course;
use crate::escapes::escaped;
use crate::facts::facts_of;
use crate::innings::put_innings;
use crate::moments::{Moment, moments_of};
use crate::result::result_of;
use crate::ruled::ruled_of;
use crate::template::{END, FRONT, MAIN, STYLE};
use crate::title::title_of;
use archive_deliveries::NamedSheet;
use cards::MatchSheet;
use corrections::BookOf;
use export::info_or;
use falls::{FallAt, falls_at};
use match_laws::Match;
use std::alloc::{AllocError, Global};
use toml::Table;

/// Writes the head of the file, with the title of the window.
fn put_front(out: &mut String, title: &str, words: &str) -> Result<(), AllocError>
    ensures { Puts result out.old out.new (page.front_html title.now words.now) }
{
    out.push_str(FRONT)?;
    out.push_str(title)?;
    out.push_str(": ")?;
    out.push_str(words)?;
    out.push_str(STYLE)
}

fn put_result(out: &mut String, words: &str) -> Result<(), AllocError>
    ensures { Puts result out.old out.new (page.result_line words.now) }
{
    writeln!(out, "<p id='result'>{words}</p>")
}

fn put_laws(out: &mut String, words: &str) -> Result<(), AllocError>
    ensures { Puts result out.old out.new (page.laws_line words.now) }
{
    writeln!(out, "<p id='by-laws'>By the Laws: {words}</p>")
}

/// Writes the result: what the umpires said, if anything, and then the result by the Laws.
fn put_ruling(out: &mut String, ruled: &str, laws: &str) -> Result<(), AllocError>
    ensures { Puts result out.old out.new (page.ruling_html ruled.now laws.now) }
{
    if ruled.is_empty() {
        return put_result(out, laws);
    }
    put_result(out, ruled)?;
    put_laws(out, laws)
}

/// Writes the title of the match, and the facts below it.
fn put_title(out: &mut String, title: &str, facts: &str) -> Result<(), AllocError>
    ensures { Puts result out.old out.new (page.title_html title.now facts.now) }
{
    writeln!(out, "{title}</h1>\n<p id='facts'>{facts}</p>")
}

/// Writes the head of the page.
fn put_header(
    out: &mut String,
    title: &str,
    facts: &str,
    ruled: &str,
    laws: &str,
) -> Result<(), AllocError>
    ensures { Puts result out.old out.new (page.header_html title.now facts.now ruled.now laws.now) }
{
    put_title(out, title, facts)?;
    put_ruling(out, ruled, laws)?;
    out.push_str(MAIN)
}

/// Returns the words, or the other text if they are empty.
fn or_other<'a>(words: &'a str, other: &'a str) -> &'a str
    ensures { result.now ≡ or_words words.now other.now }
{
    if words.is_empty() { other } else { words }
}

/// Returns what the umpires said, or nothing if the result by the Laws is the same.
fn unless_same<'a>(ruled: &'a str, laws: &str) -> &'a str
    ensures { result.now ≡ page.unless_same ruled.now laws.now }
{
    if ruled == laws { "" } else { ruled }
}

/// Writes the head of the file, with the umpires' result in the window's title, or else the result by the Laws.
fn put_window(out: &mut String, title: &str, ruled: &str, laws: &str) -> Result<(), AllocError>
    ensures { Puts result out.old out.new (page.window_html title.now ruled.now laws.now) }
{
    put_front(out, title, or_other(ruled, laws))
}

/// Writes the head of the file and the head of the page.
fn put_heads(
    out: &mut String,
    title: &str,
    facts: &str,
    ruled: &str,
    laws: &str,
) -> Result<(), AllocError>
    ensures { Puts result out.old out.new (page.heads_html title.now facts.now ruled.now laws.now) }
{
    put_window(out, title, ruled, laws)?;
    put_header(out, title, facts, ruled, laws)
}

/// Writes both heads; an umpires' result that equals the result by the Laws appears only once.
fn put_head(
    out: &mut String,
    title: &str,
    facts: &str,
    ruled: &str,
    laws: &str,
) -> Result<(), AllocError>
    ensures { Puts result out.old out.new (page.head_html title.now facts.now ruled.now laws.now) }
{
    put_heads(out, title, facts, unless_same(ruled, laws), laws)
}

/// Returns all innings that have begun, from the items of the match and the falls of its wickets.
fn innings_of(
    alloc: Global,
    sheet: &NamedSheet<'_>,
    score: &Match,
    moments: &[Moment],
    falls: &[FallAt],
) -> Result<String, AllocError>
    ensures { ForEachHistory score.now (λ n h. falls.now ≡ falls_at h → n ≡ sheet.now.innings →
        IfOk result (λ text. string_bytes text ≡ page.all_innings sheet.now n h moments.now)) }
{
    let mut out = String::new(alloc);
    for innings in 0..score.begun() {
        put_innings(alloc, &mut out, sheet, score, moments, falls, innings)?;
    }
    Ok(out)
}

/// Writes these innings, or `No play.` if there are none.
fn put_or_no_play(out: &mut String, innings: &str) -> Result<(), AllocError>
    ensures { Puts result out.old out.new (page.or_no_play innings.now) }
{
    if innings.is_empty() {
        out.push_str("<p>No play.</p>\n")
    } else {
        out.push_str(innings)
    }
}

/// Writes all innings with their cards, from the items of the match and the falls of its wickets.
fn put_cards(
    alloc: Global,
    out: &mut String,
    sheet: &NamedSheet<'_>,
    score: &Match,
    moments: &[Moment],
    falls: &[FallAt],
) -> Result<(), AllocError>
    ensures { ForEachHistory score.now (λ n h. falls.now ≡ falls_at h → n ≡ sheet.now.innings →
        Puts result out.old out.new (page.cards_html sheet.now n h moments.now)) }
{
    let innings = innings_of(alloc, sheet, score, moments, falls)?;
    put_or_no_play(out, innings.as_str())
}

/// Writes all innings of a book with their cards.
fn put_cards_of<B: BookOf>(
    alloc: Global,
    out: &mut String,
    sheet: &NamedSheet<'_>,
    book: &B,
) -> Result<(), AllocError>
    requires { B.innings_a_side book.now ≡ sheet.now.innings }
    ensures { Puts result out.old out.new
        (page.cards_html sheet.now sheet.now.innings (history_of (B.content book.now)) (moments [] (clean (B.content book.now)))) }
{
    let score = book.score();
    let moments = moments_of(alloc, sheet.innings(), book)?;
    let falls = falls_at(alloc, book)?;
    put_cards(
        alloc,
        out,
        sheet,
        score,
        moments.as_slice(),
        falls.as_slice(),
    )
}

/// Writes each over of a book, and then the charts.
fn put_overs_of<B: BookOf>(
    alloc: Global,
    out: &mut String,
    sheet: &NamedSheet<'_>,
    book: &B,
) -> Result<(), AllocError>
    requires { B.innings_a_side book.now ≡ sheet.now.innings }
    ensures { Puts result out.old out.new
        (course_html sheet.now sheet.now.innings (history_of (B.content book.now)) (moments [] (clean (B.content book.now)))) }
{
    let score = book.score();
    let moments = moments_of(alloc, sheet.innings(), book)?;
    put_course(alloc, out, sheet, score, moments.as_slice())
}

/// Writes the page below its head.
fn put_main<B: BookOf>(
    alloc: Global,
    out: &mut String,
    sheet: &NamedSheet<'_>,
    book: &B,
) -> Result<(), AllocError>
    requires { B.innings_a_side book.now ≡ sheet.now.innings }
    ensures { Puts result out.old out.new (page.main_html sheet.now sheet.now.innings (B.content book.now)) }
{
    put_cards_of(alloc, out, sheet, book)?;
    put_overs_of(alloc, out, sheet, book)?;
    put_book(alloc, out, book)?;
    out.push_str(END)
}

/// Returns the title of the match, escaped for HTML.
fn shown_title(alloc: Global, sheet: &NamedSheet<'_>, info: &Table) -> Result<String, AllocError>
    ensures { IfOk result (λ text. string_bytes text ≡ html.escaped (title_text sheet.now (table_view info.now))) }
{
    let title = title_of(alloc, sheet, info)?;
    escaped(alloc, title.as_str())
}

/// Returns what the umpires said of the result, escaped for HTML.
fn shown_ruling(alloc: Global, info: &Table) -> Result<String, AllocError>
    ensures { IfOk result (λ text. string_bytes text ≡ html.escaped (ruled_text (table_view info.now))) }
{
    let ruled = ruled_of(alloc, info)?;
    escaped(alloc, ruled.as_str())
}

/// Writes both heads, with these words as the result by the Laws.
fn put_top_with(
    alloc: Global,
    out: &mut String,
    sheet: &NamedSheet<'_>,
    info: &Table,
    laws: &str,
) -> Result<(), AllocError>
    ensures { Puts result out.old out.new (page.top_with sheet.now (table_view info.now) laws.now) }
{
    let title = shown_title(alloc, sheet, info)?;
    let facts = facts_of(alloc, info)?;
    let ruled = shown_ruling(alloc, info)?;
    put_head(out, title.as_str(), facts.as_str(), ruled.as_str(), laws)
}

/// Returns the result by the Laws, escaped for HTML.
fn laws_of<B: BookOf>(alloc: Global, sheet: &NamedSheet<'_>, book: &B) -> Result<String, AllocError>
    requires { B.innings_a_side book.now ≡ sheet.now.innings }
    ensures { IfOk result (λ text.
        string_bytes text ≡ page.result_html sheet.now sheet.now.innings (history_of (B.content book.now))) }
{
    result_of(alloc, sheet, book.score())
}

/// Writes both heads of the page of a book.
fn put_top<B: BookOf>(
    alloc: Global,
    out: &mut String,
    sheet: &NamedSheet<'_>,
    document: &Table,
    book: &B,
) -> Result<(), AllocError>
    requires { B.innings_a_side book.now ≡ sheet.now.innings }
    ensures { Puts result out.old out.new (page.top_html sheet.now (table_view document.now) (B.content book.now)) }
{
    let laws = laws_of(alloc, sheet, book)?;
    let empty = Table::new(alloc);
    let info = info_or(document, &empty);
    put_top_with(alloc, out, sheet, info, laws.as_str())
}

/// Returns the page of a book, from a sheet whose sides have different names.
fn named_page<B: BookOf>(
    alloc: Global,
    sheet: &NamedSheet<'_>,
    document: &Table,
    book: &B,
) -> Result<String, AllocError>
    requires { B.innings_a_side book.now ≡ sheet.now.innings }
    ensures { IfOk result (λ text.
        string_bytes text ≡ page.page_text sheet.now (table_view document.now) (B.content book.now)) }
{
    let mut out = String::new(alloc);
    put_top(alloc, &mut out, sheet, document, book)?;
    put_main(alloc, &mut out, sheet, book)?;
    Ok(out)
}

/// Returns the page of a book, from its sheet and the sheet's document. Two sides with one name are marked `(home)` and
/// `(away)`, as in an export.
pub fn page_of<B: BookOf>(
    alloc: Global,
    sheet: &MatchSheet,
    document: &Table,
    book: &B,
) -> Result<String, AllocError>
    requires { B.innings_a_side book.now ≡ sheet.now.innings }
    ensures { IfOk result (λ text.
        string_bytes text ≡ page.page_text (told_apart sheet.now) (table_view document.now) (B.content book.now)) }
{
    let named = NamedSheet::new(alloc, sheet)?;
    named_page(alloc, &named, document, book)
}
