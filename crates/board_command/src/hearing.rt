//! When a board heard its desks, and what is told of silence.

ghost use Rattle.std.specs.Prelude.{◌≡◌, ◌-◌, nat_le};
ghost use Rattle.board_command.specs.Hearing as laws;
ghost use Rattle.board_command.specs.Hearing.{board_begun, heard_in};
ghost use Rattle.board_command.specs.declared.hearing.TheConstants as constants;
ghost use Rattle.live.specs.HearingLogs.{hearings_of};

use agree_core::{Asker, DeskId, Message};
use live::HearingLog;
use scoreboard::LastHeard;
use std::io::Write;

/// The time in milliseconds without word from either desk after which a board says so. A desk says something at least every two
/// seconds, so many datagrams were lost, or nobody is there.
const LONGEST_SILENCE: u64 = 10_000;

/// When a board began, and when it last heard each desk since then, in milliseconds on one clock.
#[derive(Clone, Copy)]
pub struct HeardAt {
    begun: u64,
    a: Option<u64>,
    b: Option<u64>,
}

/// Returns the desk that asks, if a desk does.
fn asking_desk(asker: Asker) -> Option<DeskId>
    ensures { result ≡ laws.asking_desk asker }
{
    match asker {
        Asker::A => Some(DeskId::A),
        Asker::B => Some(DeskId::B),
        Asker::Board => None,
    }
}

/// Returns the desk that sends a message, if a desk does.
fn desk_of(message: &Message) -> Option<DeskId>
    ensures { result ≡ laws.desk_of message.now }
{
    match message {
        Message::Vote(vote) => Some(vote.desk),
        Message::Ask(ask) => asking_desk(ask.from),
    }
}

/// Whether this time was so long ago that nobody is heard.
fn is_long_ago(at: u64, now: u64) -> bool
    ensures { result ≡ laws.is_long_ago at now }
{
    now.saturating_sub(at) >= LONGEST_SILENCE
}

/// Whether this time was so long ago, or never.
fn was_long_ago(at: Option<u64>, now: u64) -> bool
    ensures { result ≡ laws.was_long_ago at now }
{
    match at {
        Some(at) => is_long_ago(at, now),
        None => true,
    }
}

/// Returns how many whole seconds ago this time was, if it ever was.
fn seconds_since(at: Option<u64>, now: u64) -> Option<u64>
    ensures { result ≡ laws.seconds_since at now }
{
    match at {
        Some(at) => Some(now.saturating_sub(at) / 1_000),
        None => None,
    }
}

impl HeardAt {
    /// A board that begins at this time, and has heard no desk yet.
    pub fn begun(now: u64) -> HeardAt
        ensures { result ≡ laws.board_begun now }
    {
        HeardAt {
            begun: now,
            a: None,
            b: None,
        }
    }

    /// Notes that a desk is heard now, if one is.
    fn heard_from(self, desk: Option<DeskId>, now: u64) -> HeardAt
        ensures { result ≡ laws.heard_from desk self now }
    {
        match desk {
            Some(DeskId::A) => HeardAt {
                a: Some(now),
                ..self
            },
            Some(DeskId::B) => HeardAt {
                b: Some(now),
                ..self
            },
            None => self,
        }
    }

    /// Whether a desk was heard.
    pub fn is_heard(self) -> bool
        ensures { result ≡ laws.is_heard self }
    {
        self.a.is_some() || self.b.is_some()
    }

    /// Whether the board began long ago, and has heard neither desk for as long.
    pub fn is_silent(self, now: u64) -> bool
        ensures { result ≡ laws.is_silent self now }
    {
        is_long_ago(self.begun, now) && was_long_ago(self.a, now) && was_long_ago(self.b, now)
    }

    /// Returns how many seconds ago each desk was last heard.
    pub fn last(self, now: u64) -> LastHeard
        ensures { result ≡ laws.last_heard self now }
    {
        LastHeard {
            a: seconds_since(self.a, now),
            b: seconds_since(self.b, now),
        }
    }
}

/// When a board heard its desks, by what it was told that it heard: a log of that, which only contracts read.
#[derive(Drop)]
pub struct Hearings {
    at: HeardAt,
    log: HearingLog,
    ghost follows: { at ≡ heard_in (board_begun at.begun) (hearings_of log) },
}

impl Hearings {
    ghost use Rattle.std.specs.Prelude.{◌∷◌, ◌++◌, []};
    ghost use Rattle.board_command.specs.Hearings.{times_of};
    ghost use Rattle.live.specs.Hearings.{hearing_of};

    /// A board that begins at this time, and has heard nothing yet.
    pub fn begun(now: u64) -> Hearings
        ensures told { hearings_of result.log ≡ [] }
        ensures times { times_of result ≡ laws.board_begun now }
    {
        Hearings {
            at: HeardAt::begun(now),
            log: HearingLog::Empty,
        }
    }

    /// Notes that this message is heard now.
    pub fn hear(&mut self, message: &Message, now: u64)
        ensures told { hearings_of self.new.log ≡ hearings_of self.old.log ++ hearing_of message.now now ∷ [] }
        ensures times { times_of self.new ≡ laws.heard_from (laws.desk_of message.now) (times_of self.old) now }
    {
        self.at = self.at.heard_from(desk_of(message), now);
        self.log = self.log.heard(message, now);
    }

    /// Returns when each desk was last heard.
    pub fn at(&self) -> HeardAt
        ensures { result ≡ times_of self.now }
    {
        self.at
    }
}

/// News of a board's desks.
#[derive(Clone, Copy)]
pub enum News {
    /// Neither desk was heard for ten seconds.
    Silent,
    /// A desk was heard again after that was told.
    HeardAgain,
}

/// Whether it was last told that neither desk is heard.
#[derive(Clone, Copy)]
pub struct Silence {
    is_told: bool,
}

impl Silence {
    /// Nothing has been told.
    pub const NOTHING: Silence = Silence { is_told: false };

    /// Returns the news at this time, each piece once.
    fn take_news(&mut self, heard: HeardAt, now: u64) -> Option<News>
        ensures news { result ≡ laws.news_of self.old.is_told (laws.is_silent heard now) }
        ensures told { self.new.is_told ≡ laws.is_silent heard now }
    {
        let was_told = self.is_told;
        self.is_told = heard.is_silent(now);
        match (was_told, self.is_told) {
            (false, true) => Some(News::Silent),
            (true, false) => Some(News::HeardAgain),
            _ => None,
        }
    }

    /// Tells the news, if any. Not being able to tell it is no fault.
    pub fn tell<E: Write>(&mut self, heard: HeardAt, now: u64, errors: &mut E)
        ensures { self.new.is_told ≡ laws.is_silent heard now }
    {
        match self.take_news(heard, now) {
            Some(News::Silent) => {
                let _ = writeln!(errors, "no desk is heard");
            }
            Some(News::HeardAgain) => {
                let _ = writeln!(errors, "a desk is heard again");
            }
            None => {}
        }
    }
}
