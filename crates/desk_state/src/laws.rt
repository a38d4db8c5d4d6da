//! What a desk's state shows of its book, what its news is, and that the Laws accept what it offers.
//!
//! These functions do nothing: they stand for the laws that they ensure.

ghost use Rattle.std.specs.Prelude.{◌≡◌, ℕ, List, None};
ghost use Rattle.notation.specs.declared.entry.Entry.{Entry};
ghost use Rattle.ball_laws.specs.History.{History};
ghost use Rattle.corrections.specs.Legal.{IsLegalBook};
ghost use Rattle.corrections.specs.Refusal.{book_refusal};
ghost use Rattle.cards.specs.Sheet.{Sheet};
ghost use Rattle.desk_state.specs.Laws.{IsSpliced, IsTaken, ShowsTheOver};

/// The deliveries shown with their places are those of the current over by the Laws.
pub fn the_over_is_shown()
    ensures { (book : List Entry) → ShowsTheOver book }
{}

/// After an accepted entry, the items from before it up to the news, followed by the news, are the items of the new book.
pub fn news_are_spliced()
    ensures { (n : ℕ) (book : List Entry) (e : Entry) → IsLegalBook n book → book_refusal n book e ≡ None → IsSpliced book e }
{}

/// The Laws accept what a state offers: a batter, a bowler's delivery, the call of over, an innings.
pub fn offers_are_taken()
    ensures { (s : Sheet) → (n : ℕ) → (h : History) → IsTaken s n h }
{}
