//! What a message shows of lines that the file of either desk lacks.

ghost use Rattle.std.specs.Prelude.{◌≡◌, ◌==◌, ◌+◌, ◌&&◌, not, if◌then◌else◌, Ok, Some};
ghost use Rattle.std.specs.Result.{ForOk};
ghost use Rattle.std.specs.Str.{bytes_eq};
ghost use Rattle.agree_core.specs.LostLines as votes;
ghost use Rattle.agree_core.specs.Positions.{InRange, next_place, next_round, position_of};
ghost use Rattle.agree_core.specs.declared.messages.{Ask.Ask as AnAsk, Vote.Vote as AVote};
ghost use Rattle.desk.specs.Desk.{state_of};
ghost use Rattle.live.specs.LostLines as lost;
ghost use Rattle.notation.specs.Code.{code};
ghost use Rattle.notation.specs.Written.{IsEntry};
ghost use Rattle.wire.specs.Layout.{IsMessage, is_at};

use crate::hearing::position_of;
use agree_core::{Asker, DeskId, Heard, Message, Position};
use corrections::BookOf;
use desk::Desk;
use entry_log::SlotsOf;
use notation::Entry;
use station_texts::doubt::Evidence;
use wire::{What, WireFault};

/// Returns the position that the message is for; an arbitrary one if there is no message.
fn position_in(read: Result<Message, WireFault>) -> Position
    ensures { ForOk read (λ m. result ≡ is_at m) }
{
    match read {
        Ok(message) => position_of(&message),
        Err(_) => Position::FIRST,
    }
}

/// Whether two positions are equal.
fn is_at(at: Position, other: Position) -> bool
    ensures { result ≡ votes.is_at at other }
{
    at == other
}

/// Whether a position comes before another one.
fn is_before(at: Position, other: Position) -> bool
    ensures { result ≡ votes.is_before at other }
{
    at.is_before(other)
}

/// Returns the position that follows this one after two votes that are alike, or that aren't.
fn next_of(at: Position, alike: bool) -> Position
    requires { InRange at }
    ensures { result ≡ (if alike then next_place at else next_round at) }
{
    if alike {
        Position {
            place: at.place + 1,
            round: 0,
        }
    } else {
        Position {
            place: at.place,
            round: at.round + 1,
        }
    }
}

/// Whether a number follows another one.
fn follows(number: u32, next: u32) -> bool
    ensures { result ≡ (number + 1 == next) }
{
    next > number && next - number == 1
}

/// Whether the second position is the next round or the next place after the first.
fn is_next(at: Position, next: Position) -> bool
    ensures { result ≡ votes.is_next at next }
{
    (at.place == next.place && follows(at.round, next.round))
        || (follows(at.place, next.place) && next.round == 0)
}

/// Whether the other desk can have reached this position, by what this desk has voted.
fn is_in_reach<S: SlotsOf, B: BookOf + Drop>(desk: &Desk<S, B>, at: Position) -> bool
    ensures { result ≡ votes.is_in_reach (state_of desk.now).seat at }
{
    let own = desk.position();
    !is_before(own, at) || (desk.has_voted() && is_next(own, at))
}

/// Whether two entries are equal.
fn is_alike(entry: &Entry, other: &Entry) -> bool
    requires entry { IsEntry entry.now }
    requires other { IsEntry other.now }
    ensures { result ≡ bytes_eq (code entry.now) (code other.now) }
{
    entry.is_same(other)
}

/// Whether the other desk's vote, for this earlier position and this entry, isn't the one by which this desk went on.
#[tactic(auto, using(std::proofs::lemmas::Grind::common_steps, crate::proofs::LostLemmas::none_cast, crate::proofs::LostLemmas::by_last))]
fn is_another_vote<S: SlotsOf, B: BookOf + Drop>(
    desk: &Desk<S, B>,
    at: Position,
    entry: &Entry,
) -> bool
    requires { IsEntry entry.now }
    ensures { result ≡ votes.is_another (state_of desk.now).seat (state_of desk.now).votes at (code entry.now) }
{
    let Some(last) = desk.last_vote() else {
        return false;
    };
    if !is_at(last.position(), at) {
        return is_before(last.position(), at);
    }
    is_at(
        next_of(last.position(), !is_alike(entry, &last.entry)),
        desk.position(),
    )
}

/// Whether this desk hasn't cast its vote at a position.
fn is_uncast<S: SlotsOf, B: BookOf + Drop>(desk: &Desk<S, B>, at: Position) -> bool
    ensures { result ≡ lost.is_uncast (state_of desk.now).seat at }
{
    let own = desk.position();
    !is_before(at, own) && !(is_at(at, own) && desk.has_voted())
}

/// Whether a desk's last vote is for this position, but for another entry.
#[tactic(auto, using(std::proofs::lemmas::Grind::common_steps, crate::proofs::LostLemmas::none_last, crate::proofs::LostLemmas::other_last))]
fn is_other_last<S: SlotsOf, B: BookOf + Drop>(
    desk: &Desk<S, B>,
    at: Position,
    entry: &Entry,
) -> bool
    requires { IsEntry entry.now }
    ensures { result ≡ lost.is_other_last (state_of desk.now).votes at (code entry.now) }
{
    match desk.last_vote() {
        Some(last) => is_at(last.position(), at) && !is_alike(entry, &last.entry),
        None => false,
    }
}

/// Whether this desk's vote for this position and entry isn't among its stored votes.
fn is_unkept_vote<S: SlotsOf, B: BookOf + Drop>(
    desk: &Desk<S, B>,
    at: Position,
    entry: &Entry,
) -> bool
    requires { IsEntry entry.now }
    ensures { result ≡ lost.is_unkept (state_of desk.now).seat (state_of desk.now).votes at (code entry.now) }
{
    is_uncast(desk, at) || is_other_last(desk, at, entry)
}

/// Whether the message is a vote that isn't among this desk's votes, if it is the desk's own.
fn is_unkept<S: SlotsOf, B: BookOf + Drop>(
    desk: &Desk<S, B>,
    read: Result<Message, WireFault>,
) -> bool
    requires { ForOk read IsMessage }
    ensures { (v : AVote) → read ≡ Ok (Message.Vote v) →
        result ≡ lost.is_unkept (state_of desk.now).seat (state_of desk.now).votes (position_of v) (code v.entry) }
{
    match read {
        Ok(Message::Vote(vote)) => is_unkept_vote(desk, vote.position(), &vote.entry),
        Ok(Message::Ask(_)) | Err(_) => false,
    }
}

/// Whether the message is a vote that isn't the one by which this desk went on, if it is for an earlier position.
fn is_another<S: SlotsOf, B: BookOf + Drop>(
    desk: &Desk<S, B>,
    read: Result<Message, WireFault>,
) -> bool
    requires { ForOk read IsMessage }
    ensures { (v : AVote) → read ≡ Ok (Message.Vote v) →
        result ≡ votes.is_another (state_of desk.now).seat (state_of desk.now).votes (position_of v) (code v.entry) }
{
    match read {
        Ok(Message::Vote(vote)) => is_another_vote(desk, vote.position(), &vote.entry),
        Ok(Message::Ask(_)) | Err(_) => false,
    }
}

/// Returns who asks, if the message is an ask.
fn asker_in(read: &Result<Message, WireFault>) -> Option<Asker>
    ensures { (q : AnAsk) → read.now ≡ Ok (Message.Ask q) → result ≡ Some q.from }
{
    match read {
        Ok(Message::Ask(ask)) => Some(ask.from),
        Ok(Message::Vote(_)) | Err(_) => None,
    }
}

/// Whether the asker is the other desk.
fn is_other(desk: DeskId, asker: Option<Asker>) -> bool
    ensures { result ≡ lost.is_other desk asker }
{
    matches!(
        (desk, asker),
        (DeskId::A, Some(Asker::B)) | (DeskId::B, Some(Asker::A))
    )
}

/// Whether the other desk asks for this desk's position.
fn is_level<S: SlotsOf, B: BookOf + Drop>(
    desk: &Desk<S, B>,
    at: Position,
    asker: Option<Asker>,
) -> bool
    ensures { result ≡ (votes.is_at at (state_of desk.now).seat.position
        && lost.is_other (state_of desk.now).seat.desk asker) }
{
    is_at(at, desk.position()) && is_other(desk.letter(), asker)
}

/// Whether the other desk asks for a position before this desk's.
fn is_earlier<S: SlotsOf, B: BookOf + Drop>(
    desk: &Desk<S, B>,
    at: Position,
    asker: Option<Asker>,
) -> bool
    ensures { result ≡ (votes.is_before at (state_of desk.now).seat.position
        && lost.is_other (state_of desk.now).seat.desk asker) }
{
    is_before(at, desk.position()) && is_other(desk.letter(), asker)
}

/// What a message shows by its position and its sender.
#[derive(Clone, Copy)]
pub struct Bearing {
    /// The message, as a vote of the other desk, isn't the one by which this desk went on.
    pub another: bool,
    /// The message, as a vote of this desk, isn't among those that it has cast.
    pub unkept: bool,
    /// The other desk asks for a position that this desk has passed over without a vote.
    pub passed_over: bool,
    /// The other desk can have reached the message's position.
    pub in_reach: bool,
    /// The other desk asks for this desk's position.
    pub is_level: bool,
}

impl Bearing {
    /// Returns the bearing after this desk has replied to the ask, or hasn't: with a reply, no position was passed over.
    pub fn behind(self, replied: bool) -> Bearing
        ensures { result ≡ record self { passed_over = self.passed_over && not replied } }
    {
        Bearing {
            passed_over: self.passed_over && !replied,
            ..self
        }
    }

    /// Returns what an ask shows.
    fn asked(self) -> Evidence
        ensures { result ≡ lost.asked self }
    {
        if self.passed_over {
            Evidence::OtherLacks
        } else if self.is_level {
            Evidence::Level
        } else {
            Evidence::Nothing
        }
    }

    /// Returns what the message shows, given the answer to it.
    pub fn evidence(self, what: What) -> Evidence
        ensures { result ≡ lost.evidence_of self what }
    {
        match what {
            What::Heard(Heard::Old) if self.another => Evidence::OtherLacks,
            What::Heard(Heard::Ahead) if !self.in_reach => Evidence::Ahead,
            What::Heard(Heard::Mine) if self.unkept => Evidence::Unkept,
            What::Asked => self.asked(),
            _ => Evidence::Nothing,
        }
    }
}

/// Returns what a message shows a desk before the desk answers it: a position before its own counts as passed over, if the
/// other desk asks for it.
pub fn bearing_of<S: SlotsOf, B: BookOf + Drop>(
    desk: &Desk<S, B>,
    read: &Result<Message, WireFault>,
) -> Bearing
    requires { ForOk read.now IsMessage }
    ensures another { (v : AVote) → read.now ≡ Ok (Message.Vote v) →
        result.another ≡ votes.is_another (state_of desk.now).seat (state_of desk.now).votes (position_of v) (code v.entry) }
    ensures unkept { (v : AVote) → read.now ≡ Ok (Message.Vote v) →
        result.unkept ≡ lost.is_unkept (state_of desk.now).seat (state_of desk.now).votes (position_of v) (code v.entry) }
    ensures passed_over { (q : AnAsk) → read.now ≡ Ok (Message.Ask q) →
        result.passed_over ≡ (votes.is_before (is_at (Message.Ask q)) (state_of desk.now).seat.position
        && lost.is_other (state_of desk.now).seat.desk (Some q.from)) }
    ensures in_reach { ForOk read.now (λ m. result.in_reach ≡ votes.is_in_reach (state_of desk.now).seat (is_at m)) }
    ensures level { (q : AnAsk) → read.now ≡ Ok (Message.Ask q) →
        result.is_level ≡ (votes.is_at (is_at (Message.Ask q)) (state_of desk.now).seat.position
        && lost.is_other (state_of desk.now).seat.desk (Some q.from)) }
{
    let at = position_in(*read);
    let asker = asker_in(read);
    Bearing {
        another: is_another(desk, *read),
        unkept: is_unkept(desk, *read),
        passed_over: is_earlier(desk, at, asker),
        in_reach: is_in_reach(desk, at),
        is_level: is_level(desk, at, asker),
    }
}
