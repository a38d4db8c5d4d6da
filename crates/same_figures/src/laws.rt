//! States that the texts of a book show the same figures.
//!
//! This function does nothing: it stands for the law that it ensures.

ghost use Rattle.std.specs.Prelude.{List, All};
ghost use Rattle.notation.specs.declared.entry.Entry.{Entry};
ghost use Rattle.notation.specs.Written.{IsEntry};
ghost use Rattle.corrections.specs.Legal.{IsLegalBook};
ghost use Rattle.cards.specs.Sheet.{Sheet};
ghost use Rattle.same_figures.specs.Laws.{TellTheSame};

/// Ensures that each innings of a legal book has one value of its figures for all texts: the cards, the match's page and a board's
/// JSON are made of that value, and the deliveries of an export add up to it.
pub fn texts_tell_the_same()
    ensures { (s : Sheet) → (book : List Entry) → All IsEntry book → IsLegalBook s.innings book → TellTheSame s book }
{}
