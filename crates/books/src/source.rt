//! The book of an input: pen lines or a desk's votes file.

ghost use Rattle.std.specs.Prelude.{◌≡◌, ◌≤◌, length, IfOk, IfErr};
ghost use Rattle.books.specs.CardBook.{IsBookFrom, WhyNoBook};

mod pen_lines;
mod votes_file;

use crate::fault::BookFault;
use agree_core::DeskId;
use cards::MatchSheet;
use corrections::CheckedBook;
use pen_lines::book_of_lines;
use std::alloc::Global;
use streams::LONGEST_INPUT;
use votes_file::book_of_file;

/// What a book is made from.
#[derive(Clone, Copy)]
pub enum Source {
    /// Pen lines.
    Lines,
    /// A desk's votes file, of either version.
    Votes(DeskId),
}

/// Returns the book of an input: pen lines, or a desk's votes file. It refuses the first line that isn't taken,
/// or what the file or its votes are refused for.
pub fn book_from(
    alloc: Global,
    sheet: &MatchSheet,
    source: Source,
    input: &[u8],
) -> Result<CheckedBook, BookFault>
    requires { length input.now ≤ LONGEST_INPUT }
    ensures book { IfOk result (λ book. IsBookFrom source sheet.now input.now book.entries) }
    ensures innings { IfOk result (λ book. book.innings_a_side ≡ sheet.now.innings) }
    ensures why { IfErr result (WhyNoBook source sheet.now input.now) }
{
    let innings = sheet.innings();
    match source {
        Source::Lines => book_of_lines(alloc, innings, input),
        Source::Votes(desk) => book_of_file(alloc, innings, desk, sheet.game(), input),
    }
}
