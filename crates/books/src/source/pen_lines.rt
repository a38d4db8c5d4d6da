//! The book of pen lines.

ghost use Rattle.std.specs.Prelude.{◌≡◌, ◌≤◌, [], None, length, IfOk, IfErr, OnOk};
ghost use Rattle.notation.specs.Lines.{lines_of};
ghost use Rattle.books.specs.Taking.{book_after};
ghost use Rattle.books.specs.Table.{IsInStep, agreed_in, innings_in};
ghost use Rattle.books.specs.CardBook.{IsBookOfLines, NamesFirstRejected, WhyNoBookOfLines, first_rejected};

use crate::fault::BookFault;
use crate::table::Table;
use corrections::CheckedBook;
use notation::Lines;
use std::alloc::Global;
use streams::LONGEST_INPUT;

/// Takes the lines of an input, up to the first that is rejected.
fn take_lines(table: &mut Table, input: &[u8]) -> Result<(), BookFault>
    requires short { length input.now ≤ LONGEST_INPUT }
    requires in_step { IsInStep table.old }
    requires empty { agreed_in table.old ≡ [] }
    ensures book { OnOk result
        (agreed_in table.new ≡ book_after (innings_in table.old) [] (lines_of input.now)) }
    ensures taken { OnOk result
        (first_rejected (innings_in table.old) 1 [] (lines_of input.now) ≡ None) }
    ensures refused { IfErr result (NamesFirstRejected (innings_in table.old) input.now) }
    ensures innings { OnOk result (innings_in table.new ≡ innings_in table.old) }
{
    let mut lines = Lines::new(input);
    let mut number = 0;
    while let Some(line) = lines.next() {
        number += 1;
        if let Err(why) = table.take(line) {
            return Err(BookFault::Line { number, why });
        }
    }
    Ok(())
}

/// Returns the book of these pen lines, in a match of one or two innings a side. It refuses the first line that
/// isn't taken.
pub fn book_of_lines(alloc: Global, innings: u32, input: &[u8]) -> Result<CheckedBook, BookFault>
    requires short { length input.now ≤ LONGEST_INPUT }
    requires innings { (1 ≤ innings) × (innings ≤ 2) }
    ensures book { IfOk result (λ book. IsBookOfLines innings input.now book.entries) }
    ensures innings { IfOk result (λ book. book.innings_a_side ≡ innings) }
    ensures why { IfErr result (WhyNoBookOfLines innings input.now) }
{
    let mut table = Table::new(alloc, innings)?;
    take_lines(&mut table, input)?;
    Ok(table.book)
}
