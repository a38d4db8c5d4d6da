//! How the agreed list of both desks' files relates to each file, and what their comparison shows. These
//! functions do nothing: they stand for the laws that they ensure.

ghost use Rattle.std.specs.Prelude.{◌≡◌, ◌↔◌, ℕ, List, [], None, length};
ghost use Rattle.notation.specs.declared.entry.Entry.{Entry};
ghost use Rattle.agree_core.specs.declared.messages.DeskId.{DeskId};
ghost use Rattle.agree_core.specs.Agreed.{BeginsWith, IsAgreedList};
ghost use Rattle.agree_core.specs.Ballots.{AllJustified, AllVotes, Ballot, In, IsSequence, votes_by};
ghost use Rattle.agree_core.specs.Books.{book_of};
ghost use Rattle.cards.specs.Sheet.{Sheet};
ghost use Rattle.books.specs.BothFiles.{HaveVotes, IsBookOfBoth};
ghost use Rattle.books.specs.Comparing.{IsComparison, differences};
ghost use Rattle.books.specs.OneHistory.{Tears};
ghost use Rattle.books.specs.declared.compare.Comparison.{Comparison};

/// Two sound files have only one agreed list, whatever their votes are (it suffices that A's file is a
/// sequence). If each vote rightly follows the one before it, given the other desk's votes, as in every run of
/// two desks, that list begins with the book that either file alone shows.
pub fn both_begin_with_each()
    ensures one { (v : AllVotes) (xs ys : List Entry) → IsSequence v.a
        → IsAgreedList v xs → IsAgreedList v ys → xs ≡ ys }
    ensures begins { (v : AllVotes) (agreed : List Entry) (d : DeskId) → AllJustified v
        → IsAgreedList v agreed → BeginsWith agreed (book_of (votes_by v d)) }
{}

/// The entries that a comparison of both files counts as agreed are those of the book of both, if it is legal.
/// The comparison shows no difference exactly if both files have the same votes.
pub fn comparisons_tell_all()
    ensures counted { (s : Sheet) (a b : List ℕ) (c : Comparison) (book : List Entry)
        → IsComparison s.game a b c → IsBookOfBoth s a b book → c.agreed ≡ length book }
    ensures nothing_told { (game : ℕ) (a b : List ℕ) (v : AllVotes) → HaveVotes game a b v
        → (differences v ≡ []) ↔ ((x : Ballot) → In x v.a ↔ In x v.b) }
{}

/// If each vote in two files rightly follows the one before it, given the other desk's votes, as in every run of
/// two desks, the votes are of one history.
pub fn one_history_is_whole()
    ensures { (game : ℕ) (a b : List ℕ) (v : AllVotes) → HaveVotes game a b v → AllJustified v → Tears v None }
{}
