//! What the calls of desks and boards preserve, on any disk and under any rules of a book.
//!
//! These functions do nothing: each stands for the laws that it ensures.

ghost use Rattle.std.specs.Prelude.{◌≡◌, ◌≢◌, ◌⊎◌, ℕ, Option, None, List, []};
ghost use Rattle.notation.specs.declared.entry.Entry.{Entry};
ghost use Rattle.agree_core.specs.declared.messages.DeskId.{DeskId as Desk};
ghost use Rattle.agree_core.specs.declared.messages.Message.{Message};
ghost use Rattle.agree_core.specs.Ballots.{AllVotes, Ballot, Justified, VotesGrow, Within};
ghost use Rattle.agree_core.specs.Boards.{BoardAnswer, BoardReceives, BoardState, BoardTicks, fresh_board};
ghost use Rattle.agree_core.specs.Books.{Rules};
ghost use Rattle.agree_core.specs.Desks.{DeskState, MayPen, PenAnswer, PenRefusal, Pens, ReceiveAnswer};
ghost use Rattle.agree_core.specs.Desks.{Receives, RefusesPen, Ticks};
ghost use Rattle.agree_core.specs.FileView.{view_of};
ghost use Rattle.agree_core.specs.Keeping.{BoardFine, DeskFine, DeskKept, DiskFine, Each, MessageFine};
ghost use Rattle.agree_core.specs.Keeping.{ShowsMore, TheirMessage};
ghost use Rattle.agree_core.specs.Openings.{Creates, OpenRefusal, Opening, Opens};
ghost use Rattle.agree_core.specs.WorkedSteps.{DiffersAndAgrees, FailedAndOpened, StoppedAndOpened};
ghost use Rattle.agree_core.specs.WorkedSteps.{VotesOfNoBook};

/// A disk, by what it shows of a desk's file: the votes, newest first, or `None` if its bytes are no
/// sound file of that desk and match. The laws of desks hold on every such disk.
pub trait ShowsVotes {
    /// What a read returns.
    ghost read: { Self → Option (List Ballot) };

    /// What a power loss at this moment may leave.
    ghost image: { Self → Option (List Ballot) → Type 0 };
}

/// An entry may be penned, or is refused for exactly one cause, whatever causes `W` the book's rules
/// have.
pub fn a_pen_is_allowed_or_refused<D, W>()
    ensures either { (rules : Rules W) (k : DeskState D) (e : Entry)
        → MayPen rules k e ⊎ ((why : PenRefusal W) × RefusesPen rules k e why) }
    ensures not_both { (rules : Rules W) (k : DeskState D) (e : Entry) (why : PenRefusal W)
        → MayPen rules k e → RefusesPen rules k e why → ⊥ }
    ensures one { (rules : Rules W) (k : DeskState D) (e : Entry) (why other : PenRefusal W)
        → RefusesPen rules k e why → RefusesPen rules k e other → why ≡ other }
{}

/// A desk's seat, book and disk always agree with its own votes and the other desk's, whatever is penned
/// and heard, as long as each vote heard from the other desk is one that it has.
pub fn desks_are_those_of_their_votes<D: ShowsVotes, W>()
    ensures created { (d : Desk) (theirs : List Ballot) (k : DeskState D)
        → Creates (view_of D.read D.image) d k → DeskFine (view_of D.read D.image) d theirs k }
    ensures pens { (rules : Rules W) (d : Desk) (theirs : List Ballot) (k l : DeskState D) (e : Entry)
        (told : PenAnswer W) (out : List Message)
        → DeskFine (view_of D.read D.image) d theirs k
        → Pens (view_of D.read D.image) rules k e told l out
        → DeskKept (view_of D.read D.image) d theirs k l out }
    ensures receives { (d : Desk) (theirs : List Ballot) (k l : DeskState D) (m : Message)
        (told : ReceiveAnswer) (out : List Message)
        → DeskFine (view_of D.read D.image) d theirs k → TheirMessage d theirs m
        → Receives (view_of D.read D.image) k m told l out
        → DeskKept (view_of D.read D.image) d theirs k l out }
    ensures ticks { (d : Desk) (theirs : List Ballot) (k : DeskState D) (out : List Message)
        → DeskFine (view_of D.read D.image) d theirs k → Ticks k out
        → DeskKept (view_of D.read D.image) d theirs k k out }
    ensures opened { (rules : Rules W) (d : Desk) (theirs votes : List Ballot) (disk : D)
        (k : DeskState D) → Justified theirs votes → ShowsMore theirs votes (D.read disk)
        → Opens (view_of D.read D.image) rules d disk (Opening.Opened k)
        → DeskFine (view_of D.read D.image) d theirs k × Within votes k.votes }
    ensures not_opened { (rules : Rules W) (d : Desk) (theirs votes : List Ballot) (disk left : D)
        (why : OpenRefusal) → DiskFine (view_of D.read D.image) d theirs votes disk
        → Opens (view_of D.read D.image) rules d disk (Opening.NotOpened why left)
        → DiskFine (view_of D.read D.image) d theirs votes left }
    ensures grows { (d : Desk) (theirs more : List Ballot) (k : DeskState D) → Within theirs more
        → DeskFine (view_of D.read D.image) d theirs k
        → DeskFine (view_of D.read D.image) d more k }
{}

/// A board's reader and book always agree with both desks' votes, as long as each vote heard is one that
/// its desk has. A board hands out no vote.
pub fn boards_are_those_of_the_votes<W>()
    ensures new { (v : AllVotes) → BoardFine v fresh_board }
    ensures receives { (rules : Rules W) (v : AllVotes) (k l : BoardState) (m : Message)
        (told : BoardAnswer) → BoardFine v k → MessageFine v m → BoardReceives rules k m told l
        → BoardFine v l }
    ensures ticks { (v : AllVotes) (k : BoardState) (out : List Message) → BoardTicks k out
        → Each (MessageFine v) out }
    ensures grows { (v w : AllVotes) (k : BoardState) → VotesGrow v w → BoardFine v k
        → BoardFine w k }
{}

// Worked calls: a round that differs and one that agrees, a pen in which the power goes, a pen that
// fails, and votes for an entry that the book refuses.
fn worked_steps()
    ensures differs { (rules : Rules ℕ) (four six : Entry) → rules [] four ≡ None
        → rules [] six ≡ None → six ≢ four → DiffersAndAgrees rules four six }
    ensures stopped { (rules : Rules ℕ) (e f : Entry) → rules [] e ≡ None
        → StoppedAndOpened rules e f }
    ensures failed { (rules : Rules ℕ) (e f : Entry) (m : Message) → rules [] e ≡ None
        → FailedAndOpened rules e f m }
    ensures bad_votes { (rules : Rules ℕ) (e : Entry) → rules [] e ≢ None
        → VotesOfNoBook rules e }
{}
