//! What the words of `card`, `export`, `page` and `lines` ask for.

ghost use Rattle.std.specs.Prelude.{IfSome};
ghost use Rattle.tasks.specs.Words.{IsTask};

use crate::forms::ONE_BOOK_OPTIONS;
use crate::task::{BookFiles, Printed, Task};
use crate::words::desk_in;
use books::Source;
use clap::ArgMatches;
use delivery_rows::Table;

/// Returns the source that a text names: pen lines, or a desk's votes.
fn source_in(text: &str) -> Option<Source> {
    match text {
        "book" => Some(Source::Lines),
        _ => Some(Source::Votes(desk_in(text)?)),
    }
}

/// Returns the files that a book is made of: both desks' where `--with` names the second, which only the kind `both` allows.
fn book_files_in<'a>(words: &ArgMatches<'a>) -> Option<BookFiles<'a>> {
    let from = words.get_str("from")?;
    match (words.get_str("kind")?, words.get_str("with")) {
        ("both", Some(with)) => Some(BookFiles::Both { a: from, b: with }),
        (kind, None) => Some(BookFiles::One {
            from,
            source: source_in(kind)?,
        }),
        _ => None,
    }
}

/// Returns the task of printing one book.
fn one_book_task<'a>(printed: Printed, words: &ArgMatches<'a>) -> Option<Task<'a>>
    ensures { IfSome result IsTask }
{
    Some(Task::Book {
        printed,
        sheet: words.get_str("sheet")?,
        files: book_files_in(words)?,
    })
}

/// Whether the words have an option that says which book is printed.
fn names_one_book(words: &ArgMatches<'_>) -> bool {
    ONE_BOOK_OPTIONS
        .iter()
        .any(|option| words.get_str(*option).is_some())
}

/// Returns the task of printing one book, or with `--each` the books of many matches. Options of one book are refused there.
pub fn book_task<'a>(printed: Printed, words: &ArgMatches<'a>) -> Option<Task<'a>>
    ensures { IfSome result IsTask }
{
    match (words.get_flag("each"), names_one_book(words)) {
        (true, true) => None,
        (true, false) => Some(Task::Each { printed }),
        (false, _) => one_book_task(printed, words),
    }
}

/// Returns the task of `export`: one of the two tables, or the JSON.
pub fn export_task<'a>(words: &ArgMatches<'a>) -> Option<Task<'a>>
    ensures { IfSome result IsTask }
{
    match (words.get_flag("rows"), words.get_flag("penalties")) {
        (true, true) => None,
        (true, false) => book_task(Printed::Rows(Table::Deliveries), words),
        (false, true) => book_task(Printed::Rows(Table::Penalties), words),
        (false, false) => book_task(Printed::Json, words),
    }
}
