//! A window over a link: what its station sends and receives through it.

ghost use Rattle.std.specs.Prelude.{◌≡◌, ◌≤◌, ℕ, List, [], IfSome, take, true};
ghost use Rattle.std.specs.Option.{ForSome};
ghost use Rattle.wire.specs.Layout.{Says};
ghost use Rattle.wire.specs.Reading.{Reads};
ghost use Rattle.links.specs.Windows.{IsAsk, IsBrought, IsFaithful, IsHanded, IsKept};

mod asks;

use crate::clock::Clock;
use crate::company::Company;
use crate::early::hears;
use crate::known::{Given, Known};
use crate::link::{Arrival, DatagramBuffer, Link, PeerLink, Receivers, Taken};
use crate::log::Log;
use crate::silence::Silence;
use agree_core::{Asker, Message, Position, Vote};
use asks::ask_for;
use std::alloc::Global;
use std::marker::Model;
use wire::{MessageBytes, SIZE, WireFault, message_of};

/// Copies a message into the first 48 bytes of a buffer.
fn put(message: &MessageBytes, buffer: &mut DatagramBuffer)
    ensures { take 48 buffer.new ≡ message.now }
{
    buffer[..SIZE].copy_from_slice(message.as_slice());
}

/// Returns the first 48 bytes of a buffer.
fn front(buffer: &DatagramBuffer) -> MessageBytes
    ensures { result ≡ take 48 buffer.now }
{
    let mut message = [0; SIZE];
    message.copy_from_slice(&buffer[..SIZE]);
    message
}

/// Reads bytes as a message of match `game`. `said` is the message that they are known to say in match `own`, if any.
fn read_in(game: u64, bytes: &[u8], said: Option<Message>, own: u64) -> Result<Message, WireFault>
    requires { ForSome said (Says own bytes.now) }
    ensures { Reads game bytes.now result }
{
    match said {
        Some(message) if game == own => Ok(message),
        _ => message_of(game, bytes),
    }
}

/// A link over another one, which saves a station that is behind most of its round trips. It does what a network may do: it
/// gives early votes again once the station reaches their position, sends an ask later or once more, and drops asks whose
/// answers are here. It also makes up asks, as anybody may: a peer's ask stands for asks for the places after it, and the
/// station's ask for asks for the places whose votes were lost; a station that is behind asks ahead for blocks of places; a
/// silent station asks for the votes of its position, so that others hear it.
pub struct Window<L: PeerLink, C: Clock> {
    link: L,
    clock: C,
    /// The number of the match.
    game: u64,
    company: Company,
    known: Known,
    silence: Silence,
    log: Log,
}

// one drop step instead of one per field
impl<L: PeerLink + Drop, C: Clock + Drop> Drop for Window<L, C> {
    fn drop(self) {
        let Window {
            link: _,
            clock: _,
            game: _,
            company: _,
            known: _,
            silence: _,
            log: _,
        } = self;
    }
}

impl<L: PeerLink, C: Clock> Model for Window<L, C> {
    ghost use Rattle.std.specs.BTreeMap.{values};
    ghost use Rattle.links.specs.Logs.{passed_of};
    ghost use Rattle.links.specs.Windows.{IsWindow, Windowed};

    ghost Value = { Windowed };

    ghost view = { λ w. record {
      game = w.game;
      above = passed_of w.log;
      below = L.log w.link;
      kept = values w.known.early.votes;
      readings = C.readings w.clock;
      quiet_since = w.known.asking.last;
    } };

    ghost invariant = { λ w. IsWindow w.game (passed_of w.log) (L.log w.link)
        (values w.known.early.votes) w.known.asking.bytes };
}

impl<L: PeerLink, C: Clock> Window<L, C> {
    ghost use Rattle.std.specs.Prelude.{◌≡◌, ◌≤◌, ◌⊎◌, ◌∷◌, ◌++◌, ℕ, List, [], IfSome, take, true};
    ghost use Rattle.agree_core.specs.declared.messages.Ask.{Ask as AnAsk};
    ghost use Rattle.wire.specs.Layout.{Says};
    ghost use Rattle.wire.specs.Reading.{Reads};
    ghost use Rattle.links.specs.Logs.{passed_of};
    ghost use Rattle.links.specs.Passed.{Sent};
    ghost use Rattle.links.specs.Windows.{AsksInTime, BringsVote, HandsDown, HasAnswers, HasSince, IsAsk, IsBrought, IsGrown, IsHanded, IsKept, IsQuietAt};
    ghost use Rattle.links.specs.Windows.{IsQuietUntilNews, IsSaid, IsStill, IsVote};
    ghost use Rattle.links.specs.declared.link.Receivers.TheVariants.{ToAll, ToOne};

    /// Returns a window over a link, in the match of this number. `log` says what passed at the link until now.
    pub fn new(alloc: Global, link: L, clock: C, game: u64, log: Log) -> Window<L, C>
        requires { passed_of log ≡ L.log link }
        ensures game { result.game ≡ game }
        ensures above { result.above ≡ passed_of log }
        ensures below { result.below ≡ L.log link }
        ensures kept { result.kept ≡ [] }
        ensures quiet { result.quiet_since ≡ 0 }
    {
        Window {
            link,
            clock,
            game,
            company: Company::new(),
            known: Known::new(alloc),
            silence: Silence::new(),
            log,
        }
    }

    /// Returns what its station has sent and received; only clauses read it.
    pub fn passed(&self) -> &Log
        ensures { passed_of result.now ≡ self.now.above }
    {
        &self.log
    }

    /// Returns the link below: it gave whatever the window gave, and was handed only what the window was, asks aside.
    pub fn link(&self) -> &L
        ensures log { L.log result.now ≡ self.now.below }
        ensures faithful { IsFaithful self.now.game self.now.above self.now.below }
    {
        &self.link
    }

    /// Notes a message that the station sends, with its reading, and returns whether to hand it down.
    fn note(&mut self, read: Result<Message, WireFault>, bytes: &MessageBytes, now: u64) -> bool
        requires { Reads self.old.game bytes.now read }
        ensures kept { IsKept self.old self.new }
        ensures below { self.new.below ≡ self.old.below }
        ensures readings { self.new.readings ≡ self.old.readings }
        ensures handed { IsVote self.old.game bytes.now → result ≡ true }
        ensures asked { (q : AnAsk) → Says self.old.game bytes.now (Message.Ask q) → IsQuietAt now self.old
            → (result ≡ true) ⊎ HasAnswers self.old.game self.new.kept q }
        ensures quiet { (self.new.quiet_since ≡ self.old.quiet_since)
            ⊎ ((self.new.quiet_since ≡ now) × IsAsk self.old.game bytes.now × (result ≡ true)) }
    {
        match read {
            Ok(Message::Vote(vote)) => {
                self.known.early.reach(vote.position());
                true
            }
            Ok(Message::Ask(ask)) => self.known.note_ask(self.game, &ask, bytes, now),
            Err(_) => true,
        }
    }

    /// Sends a message to all peers.
    fn say(&mut self, bytes: &MessageBytes, now: u64)
        requires { IsHanded self.old.game self.old.above ToAll bytes.now }
        ensures still { IsStill self.old self.new }
        ensures said { HandsDown ToAll bytes.now self.old self.new }
    {
        self.link.send(bytes);
        self.silence.end(now);
    }

    /// Takes a message that the station sends to all, with its reading. Hands a vote down at once, and an ask in time.
    fn send_read(&mut self, read: Result<Message, WireFault>, bytes: &MessageBytes)
        requires { Reads self.old.game bytes.now read }
        ensures log { self.new.above ≡ self.old.above ++ Sent ToAll bytes.now ∷ [] }
        ensures handed { IsVote self.old.game bytes.now → HandsDown ToAll bytes.now self.old self.new }
        ensures asked { AsksInTime bytes.now self.old self.new }
    {
        self.log = self.log.sent(Receivers::ToAll, bytes);
        let now = self.clock.millis();
        if self.note(read, bytes, now) {
            self.say(bytes, now);
        }
    }

    /// Prepares for the next datagram. If the last one was a made-up ask that brought no reply, its peer's window ends.
    fn begin_take(&mut self)
        ensures still { IsStill self.old self.new }
        ensures below { self.new.below ≡ self.old.below }
    {
        if let Given::MadeUp(peer) = self.known.given {
            self.company.close(peer);
        }
        self.known.given = Given::Other;
    }

    /// Returns the next made-up ask, if any. It asks as a board, whoever the peer is, so that it never makes a desk count as
    /// heard.
    fn made_up(&mut self) -> Option<MessageBytes>
        ensures still { IsStill self.old self.new }
        ensures below { self.new.below ≡ self.old.below }
        ensures ask { IfSome result (IsAsk self.new.game) }
    {
        let (peer, place) = self.company.next()?;
        self.known.given = Given::MadeUp(peer);
        ask_for(self.game, Asker::Board, Position { place, round: 0 })
    }

    /// Takes what the link gives, with the message that it says, if any. A vote that comes early is also kept for later.
    fn brought(&mut self, buffer: &mut DatagramBuffer, wait: u64) -> (Taken, Option<Message>)
        ensures kept { IsKept self.old self.new }
        ensures grown { IsGrown self.old.below self.new.below }
        ensures read { IsGrown self.old.readings self.new.readings }
        ensures quiet { (self.new.quiet_since ≡ self.old.quiet_since)
            ⊎ (HasSince self.old.readings self.new.readings self.new.quiet_since
            × BringsVote result.0 buffer.new self.old self.new) }
        ensures brought { (count : ℕ) → result.0 ≡ Taken.Datagram count
            → (count ≤ 64) × IsBrought self.new.game self.new.below (take count buffer.new) }
        ensures says { IsSaid self.new.game result.0 result.1 buffer.new }
    {
        let taken = self.link.take(buffer, wait);
        let peer = self.link.last_peer();
        let now = self.clock.millis();
        self.known.hear(self.game, taken, buffer, peer, now)
    }

    /// Sends the asks that are due, and then takes what the link brings.
    fn fetch(&mut self, buffer: &mut DatagramBuffer, wait: u64) -> (Taken, Option<Message>)
        ensures kept { IsKept self.old self.new }
        ensures brought { (count : ℕ) → result.0 ≡ Taken.Datagram count
            → (count ≤ 64) × IsBrought self.new.game self.new.below (take count buffer.new) }
        ensures says { IsSaid self.new.game result.0 result.1 buffer.new }
        ensures quiet { IsQuietUntilNews result.0 buffer.new self.old self.new }
    {
        let now = self.clock.millis();
        let wait = self.ask_what_is_due(wait, now);
        self.brought(buffer, wait)
    }

    /// Returns the next datagram, with its message if it was read: a vote kept for the station's position, a made-up ask, or
    /// what the link brings.
    fn next(&mut self, buffer: &mut DatagramBuffer, wait: u64) -> (Taken, Option<Message>)
        ensures kept { IsKept self.old self.new }
        ensures quiet { IsQuietUntilNews result.0 buffer.new self.old self.new }
        ensures brought { (count : ℕ) → result.0 ≡ Taken.Datagram count
            → (count ≤ 64) × IsBrought self.new.game self.new.below (take count buffer.new) }
        ensures says { IsSaid self.new.game result.0 result.1 buffer.new }
    {
        self.begin_take();
        if let Some(bytes) = self.known.early.take() {
            put(&bytes, buffer);
            return (Taken::Datagram(SIZE), None);
        }
        if let Some(bytes) = self.made_up() {
            put(&bytes, buffer);
            return (Taken::Datagram(SIZE), None);
        }
        self.fetch(buffer, wait)
    }

    /// Sends a reply to the peer that asked.
    fn hand_back(&mut self, bytes: &MessageBytes)
        requires { IsHanded self.old.game self.old.above ToOne bytes.now }
        ensures kept { IsKept self.old self.new }
        ensures said { HandsDown ToOne bytes.now self.old self.new }
        ensures quiet { self.new.quiet_since ≡ self.old.quiet_since }
    {
        match self.known.given {
            Given::MadeUp(peer) | Given::Answered(peer) => {
                self.known.given = Given::Answered(peer);
                self.link.send_to(peer, bytes);
            }
            Given::Ask | Given::Other => self.link.reply(bytes),
        }
    }

    /// Notes that a peer's ask was answered: the places after it are asked for too.
    fn note_reply(&mut self, bytes: &MessageBytes)
        ensures kept { IsKept self.old self.new }
        ensures below { self.new.below ≡ self.old.below }
        ensures quiet { self.new.quiet_since ≡ self.old.quiet_since }
    {
        let is_asked = matches!(self.known.given, Given::Ask);
        if let Ok(Message::Vote(vote)) = message_of(self.game, bytes.as_slice())
            && is_asked
        {
            let peer = self.link.last_peer();
            let now = self.clock.millis();
            self.company.open(peer, vote.place, now);
        }
    }
}

impl Known {
    ghost use Rattle.std.specs.Prelude.{◌≡◌, ◌⊎◌, ℕ, List, take, true};
    ghost use Rattle.std.specs.BTreeMap.{values};
    ghost use Rattle.agree_core.specs.declared.messages.Vote.{Vote as AVote};
    ghost use Rattle.links.specs.Windows.{AreOfOr, GivesVote, Has, HasMore, IsSaid};

    /// Notes a vote from this peer, and returns whether it is for now: an early vote is kept for later. Repeats and the
    /// station's own votes don't change when it asks.
    fn is_for_now(&mut self, vote: &Vote, bytes: &MessageBytes, peer: usize, now: u64) -> bool
        ensures votes { AreOfOr bytes.now (values self.new.early.votes) (values self.old.early.votes) }
        ensures asked { self.new.asking.bytes ≡ self.old.asking.bytes }
        ensures last { (self.new.asking.last ≡ self.old.asking.last) ⊎ ((self.new.asking.last ≡ now)
            × ((result ≡ true) ⊎ HasMore (values self.old.early.votes) (values self.new.early.votes))) }
    {
        if !hears(self.from, vote.desk) {
            return true;
        }
        self.voters.note(vote.desk, peer);
        self.catch_up.hear(vote.desk, vote.place);
        if self.early.is_early(vote.position()) {
            if self.early.keep(vote, bytes) {
                self.asking.follow(now);
            }
            return false;
        }
        self.asking.hear(vote.desk, vote.position(), now);
        true
    }

    /// Notes a message that this peer sent in these bytes, and returns whether it is for now.
    fn hear_message(
        &mut self,
        message: &Message,
        bytes: &MessageBytes,
        peer: usize,
        now: u64,
    ) -> bool
        ensures votes { AreOfOr bytes.now (values self.new.early.votes) (values self.old.early.votes) }
        ensures asked { self.new.asking.bytes ≡ self.old.asking.bytes }
        ensures last { (self.new.asking.last ≡ self.old.asking.last) ⊎ ((self.new.asking.last ≡ now)
            × (((result ≡ true) × ((v : AVote) × (message.now ≡ Message.Vote v)))
            ⊎ HasMore (values self.old.early.votes) (values self.new.early.votes))) }
    {
        match message {
            Message::Vote(vote) => self.is_for_now(vote, bytes, peer, now),
            Message::Ask(_) => {
                self.given = Given::Ask;
                true
            }
        }
    }

    /// Notes what the link gave from this peer, and returns it with the message that it says in match `game`, if any. An early
    /// vote is given at once too: by it a desk sees whether its own file lacks lines, and a board whether the desks told it
    /// different ones. A datagram that doesn't open changes nothing.
    fn hear(
        &mut self,
        game: u64,
        taken: Taken,
        buffer: &DatagramBuffer,
        peer: usize,
        now: u64,
    ) -> (Taken, Option<Message>)
        ensures unopened { taken ≡ Taken.Unopened → (result.0 ≡ Taken.Unopened) × (self.new ≡ self.old) }
        ensures given { (count : ℕ) → result.0 ≡ Taken.Datagram count → taken ≡ Taken.Datagram count }
        ensures says { IsSaid game result.0 result.1 buffer.now }
        ensures votes { (m : List ℕ) → Has (values self.new.early.votes) m
            → Has (values self.old.early.votes) m ⊎ ((taken ≡ Taken.Datagram 48) × (take 48 buffer.now ≡ m)) }
        ensures asked { self.new.asking.bytes ≡ self.old.asking.bytes }
        ensures last { (self.new.asking.last ≡ self.old.asking.last) ⊎ ((self.new.asking.last ≡ now)
            × (GivesVote game result.0 buffer.now ⊎ HasMore (values self.old.early.votes) (values self.new.early.votes))) }
    {
        if taken != Taken::Datagram(SIZE) {
            return (taken, None);
        }
        let bytes = front(buffer);
        let Ok(message) = message_of(game, bytes.as_slice()) else {
            return (taken, None);
        };
        self.hear_message(&message, &bytes, peer, now);
        (taken, Some(message))
    }
}

impl<L: PeerLink, C: Clock> Link for Window<L, C> {
    ghost use Rattle.std.specs.Prelude.{◌≡◌, ◌∷◌, ◌++◌, []};
    ghost use Rattle.wire.specs.Layout.{Says};
    ghost use Rattle.links.specs.Passed.{IsRead, IsTaken, Sent, taken_of};
    ghost use Rattle.links.specs.Windows.{AsksInTime, HandsDown, IsQuietUntilNews, IsVote};
    ghost use Rattle.links.specs.declared.link.Receivers.TheVariants.{ToAll, ToOne};

    ghost log = { λ window. window.above };

    fn send(&mut self, bytes: &MessageBytes)
        ensures log { self.new.above ≡ self.old.above ++ Sent ToAll bytes.now ∷ [] }
        ensures handed { IsVote self.old.game bytes.now → HandsDown ToAll bytes.now self.old self.new }
        ensures asked { AsksInTime bytes.now self.old self.new }
    {
        let read = message_of(self.game, bytes.as_slice());
        self.send_read(read, bytes);
    }

    // in its own match the bytes aren't read: the message is given
    fn send_message(&mut self, game: u64, message: &Message, bytes: &MessageBytes)
        requires { Says game bytes.now message.now }
        ensures log { self.new.above ≡ self.old.above ++ Sent ToAll bytes.now ∷ [] }
        ensures handed { IsVote self.old.game bytes.now → HandsDown ToAll bytes.now self.old self.new }
        ensures asked { AsksInTime bytes.now self.old self.new }
    {
        let read = read_in(self.game, bytes.as_slice(), Some(*message), game);
        self.send_read(read, bytes);
    }

    // an answer is handed down at once, to one peer
    fn reply(&mut self, bytes: &MessageBytes)
        ensures log { self.new.above ≡ self.old.above ++ Sent ToOne bytes.now ∷ [] }
        ensures handed { HandsDown ToOne bytes.now self.old self.new }
        ensures quiet { self.new.quiet_since ≡ self.old.quiet_since }
    {
        self.log = self.log.sent(Receivers::ToOne, bytes);
        self.hand_back(bytes);
        self.note_reply(bytes);
    }

    // the window stays quiet until something new comes
    fn take(&mut self, buffer: &mut DatagramBuffer, wait: u64) -> Taken
        ensures log { IsTaken result buffer.new self.old.above self.new.above }
        ensures quiet { IsQuietUntilNews result buffer.new self.old self.new }
    {
        let game = self.game;
        self.take_message(game, buffer, wait).taken()
    }

    // as `take`; what the link brings is read only once
    fn take_message(&mut self, game: u64, buffer: &mut DatagramBuffer, wait: u64) -> Arrival
        ensures log { IsRead game result buffer.new self.old.above self.new.above }
        ensures quiet { IsQuietUntilNews (taken_of result) buffer.new self.old self.new }
    {
        let (taken, said) = self.next(buffer, wait);
        match taken {
            Taken::Datagram(count) => {
                self.log = self.log.came(buffer, count);
                let read = read_in(game, &buffer[..count], said, self.game);
                Arrival::Datagram(count, read)
            }
            Taken::Nothing => Arrival::Nothing,
            Taken::Lost => Arrival::Lost,
            Taken::Unopened => Arrival::Unopened,
        }
    }
}

/// Whatever a window gave, its link gave, and whatever its link was handed, for all or for one, the window was handed so, asks
/// aside: votes are neither made up nor changed.
pub fn what_passes_is_kept<L: PeerLink, C: Clock>(window: &Window<L, C>)
    ensures { IsFaithful window.now.game window.now.above window.now.below }
{
    let _game = window.game;
}
