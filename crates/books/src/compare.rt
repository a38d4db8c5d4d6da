//! What both desks' votes files have in common, and where they differ.

ghost use Rattle.std.specs.Prelude.{◌≡◌, ◌++◌, All, IfErr, IfOk, IfSome, OnOk, None, false};
ghost use Rattle.std.specs.List.{flat_map};
ghost use Rattle.notation.specs.Written.{IsEntry};
ghost use Rattle.agree_core.specs.declared.position.TheConstants.{ROUNDS};
ghost use Rattle.streams.specs.Watched.{IsHandedOn, Prints, TellsFailure};
ghost use Rattle.books.specs.BothFiles.{WhyNotOpened};
ghost use Rattle.books.specs.Comparing as texts;
ghost use Rattle.books.specs.Comparing.{HasEntries, IsComparison, difference_at, differences, in_rounds};
ghost use Rattle.books.specs.DeskVotes.{entry_at, is_alike, read_votes, votes_of_both};
ghost use Rattle.books.specs.inner.Tally as inner;

use crate::both::{add, agreed_list, open_both};
use crate::desk_votes::DeskVotes;
use crate::fault::BothFault;
use crate::one_history::{first_torn, print_torn};
use agree_core::ROUNDS;
use notation::{Entry, PLACES, line_of};
use std::alloc::{AllocError, Global};
use streams::{Sink, Watched, WriteFailed};

/// What the two desks wrote in a round of a place, if they wrote differently; `None` for a desk that has no vote
/// there. `place` is below 8,192, `round` below 256.
#[derive(Clone, Copy)]
pub struct Difference {
    pub place: u32,
    pub round: u32,
    pub a: Option<Entry>,
    pub b: Option<Entry>,
}

impl Difference {
    ghost use Rattle.books.specs.Comparing.{is_of_both};

    /// Whether both desks wrote an entry there.
    fn is_of_both(&self) -> bool
        ensures { result ≡ is_of_both self.now }
    {
        self.a.is_some() && self.b.is_some()
    }
}

/// How many entries the votes of both desks have agreed, where the votes differ, in the order of places and
/// rounds, and from which place on they can't be of one history.
#[derive(Drop)]
pub struct Comparison {
    pub agreed: usize,
    pub differences: Vec<Difference>,
    /// The first place at which the votes aren't of one history, if there is one.
    pub torn: Option<u32>,
}

/// Whether both desks wrote the same entry, or neither wrote any.
pub fn is_alike(a: &Option<Entry>, b: &Option<Entry>) -> bool
    requires first { IfSome a.now IsEntry }
    requires second { IfSome b.now IsEntry }
    ensures { result ≡ is_alike a.now b.now }
{
    match (a, b) {
        (Some(first), Some(second)) => first.is_same(second),
        (None, None) => true,
        _ => false,
    }
}

/// Adds a difference, unless both desks wrote alike there.
fn add_unless_alike(found: &mut Vec<Difference>, difference: &Difference) -> Result<(), AllocError>
    requires entries { HasEntries difference.now }
    requires all_entries { All HasEntries found.old.items }
    ensures found { OnOk result (found.new.items ≡ found.old.items
        ++ texts.unless_alike difference.now.place difference.now.round difference.now.a difference.now.b) }
    ensures all_entries { OnOk result (All HasEntries found.new.items) }
{
    if is_alike(&difference.a, &difference.b) {
        return Ok(());
    }
    add(found, difference)
}

/// Adds what both desks wrote in a round of a place, unless they wrote alike. Returns whether either wrote
/// anything.
fn compare_round(
    found: &mut Vec<Difference>,
    a: &DeskVotes,
    b: &DeskVotes,
    place: u32,
    round: u32,
) -> Result<bool, AllocError>
    requires { All HasEntries found.old.items }
    ensures found { OnOk result (found.new.items
        ≡ found.old.items ++ difference_at (votes_of_both a.now b.now) place round) }
    ensures all_entries { OnOk result (All HasEntries found.new.items) }
    ensures no_first { IfOk result (λ any. any ≡ false → entry_at (read_votes a.now) place round ≡ None) }
    ensures no_second { IfOk result (λ any. any ≡ false → entry_at (read_votes b.now) place round ≡ None) }
{
    let (first, second) = (a.at(place, round), b.at(place, round));
    let difference = Difference {
        place,
        round,
        a: first,
        b: second,
    };
    add_unless_alike(found, &difference)?;
    Ok(first.is_some() || second.is_some())
}

/// Adds what both desks wrote in each round of a place, unless they wrote alike. No round after the first
/// without a vote has votes. Returns whether either desk wrote anything.
fn compare_place(
    found: &mut Vec<Difference>,
    a: &DeskVotes,
    b: &DeskVotes,
    place: u32,
) -> Result<bool, AllocError>
    requires { All HasEntries found.old.items }
    ensures found { OnOk result (found.new.items
        ≡ found.old.items ++ in_rounds (votes_of_both a.now b.now) place ROUNDS) }
    ensures all_entries { OnOk result (All HasEntries found.new.items) }
    ensures no_first { IfOk result (λ any. any ≡ false → entry_at (read_votes a.now) place 0 ≡ None) }
    ensures no_second { IfOk result (λ any. any ≡ false → entry_at (read_votes b.now) place 0 ≡ None) }
{
    for round in 0..ROUNDS {
        if !compare_round(found, a, b, place, round)? {
            return Ok(round > 0);
        }
    }
    Ok(true)
}

/// Returns where both desks' votes differ, in the order of places and rounds. No place after the first without a
/// vote has votes.
fn differences(alloc: Global, a: &DeskVotes, b: &DeskVotes) -> Result<Vec<Difference>, AllocError>
    ensures found { IfOk result (λ found. found.items ≡ differences (votes_of_both a.now b.now)) }
    ensures all_entries { IfOk result (λ found. All HasEntries found.items) }
{
    let mut found = Vec::new(alloc);
    for place in 0..PLACES {
        if !compare_place(&mut found, a, b, place)? {
            return Ok(found);
        }
    }
    Ok(found)
}

/// Compares both desks' votes files of a match. It refuses what the first refused votes file is refused for, A's
/// before B's, and never as `BadVotes`: nothing is scored.
pub fn compare_files(alloc: Global, game: u64, a: &[u8], b: &[u8]) -> Result<Comparison, BothFault>
    ensures comparison { IfOk result (IsComparison game a.now b.now) }
    ensures all_entries { IfOk result (λ comparison. All HasEntries comparison.differences.items) }
    ensures why { IfErr result (WhyNotOpened game a.now b.now) }
{
    let (a_votes, b_votes) = open_both(alloc, game, a, b)?;
    let list = agreed_list(alloc, &a_votes, &b_votes)?;
    let differences = differences(alloc, &a_votes, &b_votes)?;
    Ok(Comparison {
        agreed: list.len(),
        differences,
        torn: first_torn(&a_votes, &b_votes),
    })
}

/// Prints what a desk wrote, or `nothing` if it has no vote.
fn print_vote<W: Sink>(out: &mut Watched<W>, vote: &Option<Entry>) -> Result<(), WriteFailed>
    requires { IfSome vote.now IsEntry }
    ensures text { OnOk result (Prints W.contents out.old out.new (texts.vote_text vote.now)) }
    ensures failed { TellsFailure result out.old out.new }
{
    match vote {
        Some(entry) => {
            let line = line_of(entry);
            let text = line.as_str();
            write!(out, "{text}")
        }
        None => write!(out, "nothing"),
    }
}

/// Prints a place and a round.
fn print_position<W: Sink>(out: &mut Watched<W>, place: u32, round: u32) -> Result<(), WriteFailed>
    ensures text { OnOk result (Prints W.contents out.old out.new (texts.position_text place round)) }
    ensures failed { TellsFailure result out.old out.new }
{
    write!(out, "{place} round {round}")
}

/// Prints the line of a difference.
fn print_difference<W: Sink>(
    out: &mut Watched<W>,
    difference: &Difference,
) -> Result<(), WriteFailed>
    requires { HasEntries difference.now }
    ensures text { OnOk result (Prints W.contents out.old out.new (texts.difference_line difference.now)) }
    ensures failed { TellsFailure result out.old out.new }
{
    print_position(out, difference.place, difference.round)?;
    write!(out, ": a ")?;
    print_vote(out, &difference.a)?;
    write!(out, ", b ")?;
    print_vote(out, &difference.b)?;
    writeln!(out)
}

/// Prints the lines of these differences.
fn print_differences<W: Sink>(
    out: &mut Watched<W>,
    differences: &[Difference],
) -> Result<(), WriteFailed>
    requires { All HasEntries differences.now }
    ensures text { OnOk result (Prints W.contents out.old out.new
        (flat_map texts.difference_line differences.now)) }
    ensures failed { TellsFailure result out.old out.new }
{
    for i in 0..differences.len() {
        print_difference(out, &differences[i])?;
    }
    Ok(())
}

/// The number of differences of each kind.
struct Tally {
    differed: usize,
    only_a: usize,
    only_b: usize,
}

/// Counts the differences of each kind.
fn tally_of(differences: &[Difference]) -> Tally
    ensures { result ≡ inner.tally_of differences.now }
{
    let mut tally = Tally {
        differed: 0,
        only_a: 0,
        only_b: 0,
    };
    for i in 0..differences.len() {
        let difference = &differences[i];
        tally.differed += usize::from(difference.is_of_both());
        tally.only_a += usize::from(difference.b.is_none());
        tally.only_b += usize::from(difference.a.is_none());
    }
    tally
}

/// Prints how many entries are agreed, and how many differences there are of each kind.
fn print_sum<W: Sink>(
    out: &mut Watched<W>,
    agreed: usize,
    differences: &[Difference],
) -> Result<(), WriteFailed>
    ensures text { OnOk result (Prints W.contents out.old out.new (texts.sum_of agreed differences.now)) }
    ensures failed { TellsFailure result out.old out.new }
{
    let Tally {
        differed,
        only_a,
        only_b,
    } = tally_of(differences);
    writeln!(
        out,
        "agreed {agreed}, differed {differed}, only a {only_a}, only b {only_b}"
    )
}

/// Prints the place from which on the votes aren't of one history, if there is one.
fn print_tear<W: Sink>(out: &mut Watched<W>, torn: Option<u32>) -> Result<(), WriteFailed>
    ensures text { OnOk result (Prints W.contents out.old out.new (texts.torn_text torn)) }
    ensures failed { TellsFailure result out.old out.new }
{
    match torn {
        Some(place) => print_torn(out, place),
        None => Ok(()),
    }
}

/// Prints a line for each place and round at which the desks differ. Then prints how many entries are agreed,
/// and how many differences are of both desks, of A alone and of B alone; and then, if the votes aren't of one
/// history, from which place on. It fails only if a write fails, and doesn't say how much was written by then.
pub fn print_comparison<W: Sink>(
    comparison: &Comparison,
    out: &mut Watched<W>,
) -> Result<(), WriteFailed>
    requires { All HasEntries comparison.now.differences.items }
    ensures text { OnOk result (Prints W.contents out.old out.new
        (texts.comparison_text comparison.now.agreed comparison.now.differences.items comparison.now.torn)) }
    ensures handed_on { OnOk result (IsHandedOn W.calls out.new) }
    ensures failed { TellsFailure result out.old out.new }
{
    let differences = comparison.differences.as_slice();
    print_differences(out, differences)?;
    print_sum(out, comparison.agreed, differences)?;
    print_tear(out, comparison.torn)?;
    out.flush()
}
