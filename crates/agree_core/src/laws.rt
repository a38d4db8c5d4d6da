//! What votes settle, whatever is sent and heard.
//!
//! These functions do nothing: each stands for the laws that it ensures.

ghost use Rattle.std.specs.Prelude.{◌≡◌, ◌≢◌, ℕ, None, List, [], ◌∷◌, ◌++◌, length};
ghost use Rattle.notation.specs.declared.entry.Entry.{Entry};
ghost use Rattle.agree_core.specs.declared.messages.Vote.{Vote};
ghost use Rattle.agree_core.specs.declared.seat.Heard.{Heard};
ghost use Rattle.agree_core.specs.declared.seat.Settled.{Settled};
ghost use Rattle.agree_core.specs.Agreed.{BeginsWith, IsAgreedList};
ghost use Rattle.agree_core.specs.Ballots.{AllJustified, Ballot, IsSequence, Justified, AllVotes, VotesGrow};
ghost use Rattle.agree_core.specs.Books.{AllTaken, FirstRefused, IsAgreedByFiles, Rules, book_of};
ghost use Rattle.agree_core.specs.Laws.{EqualVotesSettle, FilesSettled, ListsLastVotes, OneBook, OneVoteEach};
ghost use Rattle.agree_core.specs.Laws.{PlacesSettled, RoundsDiffer, SettledOnce, TakenOrRefused};
ghost use Rattle.agree_core.specs.Readers.{Listens, ReaderState, ReaderWaits};
ghost use Rattle.agree_core.specs.Seats.{Casts, Hears, SeatState, SeatWaits};
ghost use Rattle.agree_core.specs.Rows.{FileOfSecondRound, LeastRound, RefusedInTurn, SecondRound};

/// If each vote follows the one before it, a desk votes once at a position, a vote of the next round
/// shows that the desks differed in this round, and a vote of the next place shows that this place is
/// settled.
pub fn votes_follow()
    ensures once { (v : AllVotes) → AllJustified v → OneVoteEach v }
    ensures rounds { (v : AllVotes) → AllJustified v → RoundsDiffer v }
    ensures places { (v : AllVotes) → AllJustified v → PlacesSettled v }
    ensures sequence { (theirs votes : List Ballot) → Justified theirs votes → IsSequence votes }
{}

/// A place is settled at one entry, in one round: the least with equal votes of both desks.
pub fn settled_once()
    ensures once { (v : AllVotes) → AllJustified v → SettledOnce v }
    ensures least { (v : AllVotes) → AllJustified v → EqualVotesSettle v }
{}

/// There is one agreed list, and more votes only make it longer. Of two books of settled entries one
/// begins with the other, whichever of the votes settle each.
pub fn agreed_list_grows()
    ensures grows { (v w : AllVotes) (xs ys : List Entry) → VotesGrow v w → AllJustified w
        → IsAgreedList v xs → IsAgreedList w ys → BeginsWith ys xs }
    ensures one { (v : AllVotes) (xs ys : List Entry) → AllJustified v
        → IsAgreedList v xs → IsAgreedList v ys → xs ≡ ys }
    ensures one_book { (w : AllVotes) → AllJustified w → OneBook w }
{}

/// A desk's file shows a book of settled entries, as long as the place of its last vote. The list by its
/// votes has the last vote of each place, later votes only add to the book, and the two files show the
/// agreed list.
pub fn files_show_the_agreed_list()
    ensures settled { (v : AllVotes) → AllJustified v → FilesSettled v }
    ensures long { (bs : List Ballot) (b : Ballot) → IsSequence (b ∷ bs)
        → length (book_of (b ∷ bs)) ≡ b.at.place }
    ensures last { (votes : List Ballot) → IsSequence votes → ListsLastVotes votes }
    ensures begins { (later votes : List Ballot)
        → BeginsWith (book_of (later ++ votes)) (book_of votes) }
    ensures agreed { (v : AllVotes) (xs : List Entry) → AllJustified v
        → IsAgreedByFiles v.a v.b xs → IsAgreedList v xs }
{}

/// No seat and no reader keeps both votes of its position: the call that brings the second vote ends the round.
pub fn no_round_waits()
    ensures casts { (s t : SeatState) (e : Entry) (settled : Settled) → Casts s e settled t
        → SeatWaits t }
    ensures hears { (s t : SeatState) (v : Vote) (heard : Heard) → SeatWaits s → Hears s v heard t
        → SeatWaits t }
    ensures listens { (r t : ReaderState) (v : Vote) (heard : Heard) → ReaderWaits r
        → Listens r v heard t → ReaderWaits t }
{}

/// A book's rules take a list of entries whole, or refuse it first at one place, whatever the rules and
/// their causes `W`. One more entry is taken or refused by the entries before it.
pub fn taken_or_refused<W>()
    ensures one { (rules : Rules W) (xs : List Entry) → TakenOrRefused rules xs }
    ensures taken { (rules : Rules W) (xs : List Entry) (e : Entry) → AllTaken rules [] xs
        → rules xs e ≡ None → AllTaken rules [] (xs ++ e ∷ []) }
    ensures refused { (rules : Rules W) (xs rest : List Entry) (e : Entry) → AllTaken rules [] xs
        → rules xs e ≢ None → FirstRefused rules [] (xs ++ e ∷ rest) (length xs) }
{}

// Worked votes: a round that differs and one that agrees, what a file shows of them, the least of two
// rounds with equal votes, and the place of a refused entry.
fn worked_votes()
    ensures second_round { (p q r four six : Entry) → four ≢ six → SecondRound p q r four six }
    ensures file { (p q r four six : Entry) → FileOfSecondRound p q r four six }
    ensures least { (e f : Entry) → LeastRound e f }
    ensures refused { (rules : Rules ℕ) (e f : Entry) → RefusedInTurn rules e f }
{}
