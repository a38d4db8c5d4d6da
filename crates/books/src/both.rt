//! The book of both desks' votes files.

ghost use Rattle.std.specs.Prelude.{◌≡◌, ◌≤◌, ◌++◌, ◌∷◌, [], All, ◌↔◌, IfErr, IfOk, IsTrue, OnOk, length, vec_len};
ghost use Rattle.notation.specs.declared.entry.TheConstants.{PLACES};
ghost use Rattle.notation.specs.Written.{IsEntry};
ghost use Rattle.corrections.specs.Refusal.{book_refusal};
ghost use Rattle.agree_core.specs.Agreed.{IsAgreedList};
ghost use Rattle.agree_core.specs.Ballots.{In, ballot_of};
ghost use Rattle.agree_core.specs.Books.{AllTaken};
ghost use Rattle.books.specs.BothFiles.{HaveVotes, IsBookOfBoth, WhyNoBookOfBoth, WhyNotOpened};
ghost use Rattle.books.specs.DeskVotes.{read_votes, votes_of_both};
ghost use Rattle.books.specs.inner.Both.{NamesRefused};

use crate::desk_votes::DeskVotes;
use crate::fault::BothFault;
use crate::one_history::first_torn;
use agree_core::{DeskId, Vote};
use cards::MatchSheet;
use corrections::{BookOf, CheckedBook};
use notation::Entry;
use std::alloc::{AllocError, Global};

/// Returns the votes of both desks' files of a match. It refuses what the first refused votes file is refused
/// for, A's before B's.
pub fn open_both(
    alloc: Global,
    game: u64,
    a: &[u8],
    b: &[u8],
) -> Result<(DeskVotes, DeskVotes), BothFault>
    ensures votes { IfOk result (λ found. HaveVotes game a.now b.now (votes_of_both found.0 found.1)) }
    ensures why { IfErr result (WhyNotOpened game a.now b.now) }
{
    let a_votes = match DeskVotes::of_file(alloc, DeskId::A, game, a) {
        Ok(votes) => votes,
        Err(why) => return Err(BothFault::of(DeskId::A, why)),
    };
    match DeskVotes::of_file(alloc, DeskId::B, game, b) {
        Ok(b_votes) => Ok((a_votes, b_votes)),
        Err(why) => Err(BothFault::of(DeskId::B, why)),
    }
}

/// Adds a copy of a value at the end.
pub fn add<T: Copy + Drop>(list: &mut Vec<T>, value: &T) -> Result<(), AllocError>
    ensures { OnOk result (list.new.items ≡ list.old.items ++ value.now ∷ []) }
{
    list.push(*value)?;
    Ok(())
}

/// Whether a vote is for this place, and the other desk has the same vote.
fn settles(vote: &Vote, place: usize, other: &DeskVotes) -> bool
    ensures { IsTrue result ↔ ((vote.now.place ≡ place) × In (ballot_of vote.now) (read_votes other.now)) }
{
    vote.place as usize == place && other.has(vote)
}

/// Returns the agreed list of both desks' votes. A vote of A gives the next entry if it is for the next place,
/// and B has the same vote.
pub fn agreed_list(alloc: Global, a: &DeskVotes, b: &DeskVotes) -> Result<Vec<Entry>, AllocError>
    ensures agreed { IfOk result (λ list.
        IsAgreedList (votes_of_both a.now b.now) list.items) }
    ensures entries { IfOk result (λ list. All IsEntry list.items) }
    ensures places { IfOk result (λ list. vec_len list ≤ PLACES) }
{
    let mut list = Vec::new(alloc);
    for i in 0..a.count() {
        let vote = a.nth(i);
        if settles(&vote, list.len(), b) {
            add(&mut list, &vote.entry)?;
        }
    }
    Ok(list)
}

/// Returns the book of these entries.
fn book_of_entries(alloc: Global, innings: u32, entries: &[Entry]) -> Result<CheckedBook, BothFault>
    requires innings { (1 ≤ innings) × (innings ≤ 2) }
    requires entries { All IsEntry entries.now }
    requires places { length entries.now ≤ PLACES }
    ensures book { IfOk result (λ book. book.entries ≡ entries.now) }
    ensures taken { IfOk result (λ book. AllTaken (book_refusal innings) [] book.entries) }
    ensures same_match { IfOk result (λ book. book.innings_a_side ≡ innings) }
    ensures why { IfErr result (NamesRefused (book_refusal innings) entries.now) }
{
    let mut book = CheckedBook::new(alloc, innings)?;
    for i in 0..entries.len() {
        if book.enter(&entries[i]).is_err() {
            return Err(BothFault::BadVotes { place: book.len() });
        }
    }
    Ok(book)
}

/// The book of both desks' votes files, and the votes that the book is made of.
#[derive(Drop)]
pub struct BothBook {
    pub book: CheckedBook,
    pub a: DeskVotes,
    pub b: DeskVotes,
}

/// Returns the book of both desks' votes files: the agreed list of their votes, including the last entry. Byte 7
/// of a file names the file's version. It refuses what the first refused votes file is refused for, A's before
/// B's; then `NotOneHistory` if a desk went on without its votes; and then `BadVotes` if the agreed list is no
/// legal book.
pub fn book_of_both(
    alloc: Global,
    sheet: &MatchSheet,
    a: &[u8],
    b: &[u8],
) -> Result<BothBook, BothFault>
    ensures book { IfOk result (λ both. IsBookOfBoth sheet.now a.now b.now both.book.entries) }
    ensures same_match { IfOk result (λ both. both.book.innings_a_side ≡ sheet.now.innings) }
    ensures votes { IfOk result (λ both. HaveVotes sheet.now.game a.now b.now (votes_of_both both.a both.b)) }
    ensures why { IfErr result (WhyNoBookOfBoth sheet.now a.now b.now) }
{
    let (a_votes, b_votes) = open_both(alloc, sheet.game(), a, b)?;
    if let Some(place) = first_torn(&a_votes, &b_votes) {
        return Err(BothFault::NotOneHistory { place });
    }
    let list = agreed_list(alloc, &a_votes, &b_votes)?;
    match book_of_entries(alloc, sheet.innings(), list.as_slice()) {
        Ok(book) => Ok(BothBook {
            book,
            a: a_votes,
            b: b_votes,
        }),
        Err(why) => Err(why),
    }
}
