//! A browser's connection.

ghost use Rattle.std.specs.Prelude.{◌≡◌, ◌⊎◌, ◌≤◌, ◌++◌, drop, false, nat_lt, vec_len};
ghost use Rattle.std.specs.Result.{ForOk};
ghost use Rattle.viewers.specs.Replies.{beat_text, number_for};
ghost use Rattle.viewers.specs.Said.{Tells, said_in, taken_by};

use crate::asks::{Ask, Asked, Heading, Wish, bytes_at, wish_in};
use crate::guest::{Guest, Stay};
use crate::inbox::{Inbox, give, hand_out, is_passed, take};
use crate::logs::SaidLog;
use crate::page_texts::PageTexts;
use crate::replies::{beat, reply, told};
use crate::station::Station;
use crate::stream::{Stream, Wire};
use crate::times::VIEWER_PATIENCE;
use arrayvec::ArrayVec;
use bytes::{Buf, BytesMut};
use http1::{Event, Limits, Server, WriteError};
use httparse::spans::{EMPTY_HEADER_SPAN, HeaderSpan, Span};
use std::alloc::Global;
use std::io;

/// The largest number of pieces read or written at once.
const MOST_PIECES: u32 = 8;

/// The largest number of header fields.
const MOST_FIELDS: usize = 32;

/// The limits of a head.
const LIMITS: Limits = Limits {
    max_head_len: 4096,
    max_extensions_len: 64,
    max_trailers_len: 64,
};

/// The stage of a connection.
#[derive(Clone, Copy)]
enum Stage {
    /// A head is being read.
    Head,
    /// A line that is to be typed is being read.
    Line(Heading),
    /// The viewer watches, and was told the states up to this number.
    Watching(u64),
    /// The viewer was answered. Further input is ignored.
    Answered,
    /// The answer was sent, and the connection's write side is shut down.
    Ended,
}

/// A browser's connection, which makes one request. The bytes that it took and those still to be sent are exactly what it was
/// told: one answer, and if it asked for events, states and beats.
#[derive(Drop)]
pub struct Viewer<S: Stream> {
    wire: Wire<S>,
    server: Server,
    input: BytesMut,
    /// The line to be typed, as far as it has come: 129 bytes if it is too long.
    line: ArrayVec<u8, 129>,
    /// The text that it was last told.
    out: Vec<u8>,
    /// How many bytes of that text are taken.
    done: usize,
    said: SaidLog,
    stage: Stage,
    guest: Guest,
    /// When it connected.
    came: u64,
    /// Whether it had a good pass, made with the secret of the desk's page.
    is_signed: bool,
    since: u64,
    may_read: bool,
    /// Whether it took all pieces that it was last handed, so that it may take more.
    takes_more: bool,
    /// Whether no more input comes.
    is_left: bool,
    is_gone: bool,
    ghost within: { done ≤ vec_len out },
    ghost sent: { taken_by wire ++ drop done out.items ≡ said_in said },
}

impl<S: Stream> Viewer<S> {
    /// Begins a connection that came now.
    pub fn new(alloc: Global, stream: S, guest: Guest, now: u64) -> Viewer<S>
        ensures { result.is_signed ≡ false }
    {
        Viewer {
            wire: Wire::of(stream),
            server: Server::new(LIMITS),
            input: BytesMut::new(alloc),
            line: ArrayVec::new(),
            out: Vec::new(alloc),
            done: 0,
            said: SaidLog::Empty,
            stage: Stage::Head,
            guest,
            came: now,
            is_signed: false,
            since: now,
            may_read: true,
            takes_more: false,
            is_left: false,
            is_gone: false,
        }
    }

    /// Notes that there may be something to read.
    pub fn wake(&mut self) {
        self.may_read = true;
    }

    /// Returns the network that it comes from.
    pub fn from(&self) -> u64 {
        self.guest.from
    }

    /// Returns when it connected.
    pub fn came(&self) -> u64 {
        self.came
    }

    /// Whether it had a good pass, made with the secret of the desk's page.
    pub fn is_signed(&self) -> bool
        ensures { result ≡ self.now.is_signed }
    {
        self.is_signed
    }

    /// Whether it can be read or written at once.
    pub fn has_more(&self) -> bool {
        !self.is_gone && (self.may_read || self.takes_more)
    }

    /// Returns what it is doing.
    pub fn stay(&self) -> Stay {
        match self.stage {
            Stage::Head | Stage::Line(_) => Stay::Asking,
            Stage::Answered | Stage::Ended => Stay::Answered,
            Stage::Watching(_) => Stay::Watching,
        }
    }

    /// Whether some of what it was told isn't taken yet.
    fn is_sending(&self) -> bool
        ensures { result ≡ nat_lt self.now.done (vec_len self.now.out) }
    {
        self.done < self.out.len()
    }

    /// Whether it is to be dropped: it has left, or its time is over.
    pub fn is_over(&self, now: u64) -> bool {
        let is_idle = matches!(self.stage, Stage::Watching(_)) && !self.is_sending();
        self.is_gone || (!is_idle && now.saturating_sub(self.since) > VIEWER_PATIENCE)
    }

    /// Whether it watches.
    pub fn is_watching(&self) -> bool {
        matches!(self.stage, Stage::Watching(_)) && !self.is_gone
    }

    /// Tells it this text next, which `said` describes. If the text couldn't be made, the viewer is dropped.
    fn say(&mut self, text: Result<Vec<u8>, WriteError>, said: SaidLog)
        requires all { self.old.done ≡ vec_len self.old.out }
        requires text { ForOk text (λ bytes. said_in said ≡ said_in self.old.said ++ bytes.items) }
        ensures said { (self.new.said ≡ self.old.said) ⊎ (self.new.said ≡ said) }
        ensures signed { self.new.is_signed ≡ self.old.is_signed }
    {
        match text {
            Ok(text) => {
                self.out = text;
                self.done = 0;
                self.said = said;
            }
            Err(_) => self.is_gone = true,
        }
    }

    /// Answers a request while these texts are shown.
    fn answer(&mut self, alloc: Global, asked: Asked, shown: &PageTexts) {
        if self.is_sending() {
            return;
        }
        self.stage = match asked.ask {
            Ask::Events => Stage::Watching(0),
            _ => Stage::Answered,
        };
        self.input = BytesMut::new(alloc);
        let said = self.said.answered(&self.server, &asked, shown);
        let text = reply(alloc, &mut self.server, asked.ask, asked.is_head, shown);
        self.say(text, said);
    }

    /// Returns what the head asks to have done, once it is complete.
    fn wish(&mut self, station: Station) -> Option<Wish> {
        let mut fields: [HeaderSpan; 32] = [EMPTY_HEADER_SPAN; MOST_FIELDS];
        let read = match self.server.read(self.input.as_slice(), &mut fields) {
            Ok(read) => read,
            Err(why) => return Some(Wish::refused(why.status())),
        };
        let wish = match read.event {
            Event::Head(head) => {
                let count = head.headers.min(MOST_FIELDS);
                let input = self.input.as_slice();
                Some(wish_in(station, input, &head, &fields[..count], self.guest.at))
            }
            _ => None,
        };
        self.input.advance(read.consumed);
        wish
    }

    /// Keeps a piece of a line, up to 129 bytes.
    fn keep(&mut self, piece: Span)
        ensures { self.new.input ≡ self.old.input }
    {
        for byte in bytes_at(self.input.as_slice(), piece) {
            let _full = self.line.try_push(*byte);
        }
    }

    /// Reads more of a line that is to be typed, and answers once it is complete.
    fn read_line(
        &mut self,
        alloc: Global,
        heading: Heading,
        shown: &PageTexts,
        inbox: &mut Option<Inbox>,
    ) {
        let mut fields: [HeaderSpan; 32] = [EMPTY_HEADER_SPAN; MOST_FIELDS];
        let read = match self.server.read(self.input.as_slice(), &mut fields) {
            Ok(read) => read,
            Err(why) => {
                self.reply_to(alloc, Ask::Faulty(why.status()), shown);
                return;
            }
        };
        match read.event {
            Event::Data(piece) => self.keep(piece),
            Event::End(_) => {
                let ask = take(inbox, heading, self.line.as_slice());
                self.reply_to(alloc, ask, shown);
                return;
            }
            _ => {}
        }
        self.input.advance(read.consumed);
    }

    /// Answers a request that isn't for the head alone.
    fn reply_to(&mut self, alloc: Global, ask: Ask, shown: &PageTexts) {
        self.answer(
            alloc,
            Asked {
                ask,
                is_head: false,
            },
            shown,
        );
    }

    /// Makes it a watching viewer, signed if its pass is good. Without a good pass it is refused if it has no seat.
    fn watch(&mut self, alloc: Global, is_good: bool, shown: &PageTexts) {
        self.is_signed = is_good;
        let ask = if self.guest.is_behind && !is_good {
            Ask::Full
        } else {
            Ask::Events
        };
        self.reply_to(alloc, ask, shown);
    }

    /// Answers whether a pass is good.
    fn look(&mut self, alloc: Global, is_good: bool, shown: &PageTexts) {
        let ask = if is_good {
            Ask::Signed
        } else {
            Ask::Faulty(403)
        };
        self.reply_to(alloc, ask, shown);
    }

    /// Reads the head, once it is complete, and does what it asks for.
    fn read_head(&mut self, alloc: Global, shown: &PageTexts, inbox: &mut Option<Inbox>, now: u64) {
        match self.wish(shown.station) {
            Some(Wish::Answer(asked)) => {
                let asked = asked.ready(shown, self.guest.is_behind);
                self.answer(alloc, asked, shown);
            }
            Some(Wish::Watch(pass)) => self.watch(alloc, is_passed(inbox, &pass), shown),
            Some(Wish::Look(pass)) => self.look(alloc, is_passed(inbox, &pass), shown),
            Some(Wish::Claim(claim)) => {
                let ask = hand_out(inbox, &claim, now);
                self.reply_to(alloc, ask, shown);
            }
            Some(Wish::Nonce) => {
                let given = give(inbox);
                self.reply_to(alloc, given, shown);
            }
            Some(Wish::Line(heading)) => self.stage = Stage::Line(heading),
            None => {}
        }
    }

    /// Handles the input, in a limited number of steps: a head, the pieces of a line, its end. Anything after that is ignored.
    fn go_on(&mut self, alloc: Global, shown: &PageTexts, inbox: &mut Option<Inbox>, now: u64) {
        for _ in 0..MOST_PIECES {
            match self.stage {
                Stage::Head => self.read_head(alloc, shown, inbox, now),
                Stage::Line(heading) => self.read_line(alloc, heading, shown, inbox),
                _ => break,
            }
        }
    }

    /// Takes input. Whatever follows the first request is ignored.
    fn take(
        &mut self,
        alloc: Global,
        bytes: &[u8],
        shown: &PageTexts,
        inbox: &mut Option<Inbox>,
        now: u64,
    ) {
        if !matches!(self.stage, Stage::Head | Stage::Line(_)) {
            return;
        }
        if self.input.extend_from_slice(bytes).is_err() {
            self.is_gone = true;
            return;
        }
        self.go_on(alloc, shown, inbox, now);
    }

    /// Notes that no more input comes. A viewer being answered still gets the rest.
    fn leave(&mut self) {
        self.may_read = false;
        self.is_left = true;
        if !matches!(self.stage, Stage::Answered) || !self.is_sending() {
            self.is_gone = true;
        }
    }

    /// Reads once, and answers the request.
    fn read(&mut self, alloc: Global, shown: &PageTexts, inbox: &mut Option<Inbox>, now: u64) {
        let mut buffer = [0u8; 2048];
        match self.wire.read(&mut buffer) {
            Ok(Some(0)) => self.leave(),
            Ok(Some(count)) => {
                let count = count.min(buffer.len());
                self.take(alloc, &buffer[..count], shown, inbox, now);
            }
            Ok(None) => self.may_read = false,
            Err(_) => self.is_gone = true,
        }
    }

    /// Hands over a piece of what it is told, and returns how many bytes were taken.
    fn hand_piece(&mut self) -> io::Result<usize>
        ensures { self.new.said ≡ self.old.said }
    {
        let count = self.wire.hand(&self.out, self.done)?;
        self.done += count;
        Ok(count)
    }

    /// Notes that it takes what it is told.
    fn note_taken(&mut self, now: u64)
        ensures { self.new.said ≡ self.old.said }
    {
        if matches!(self.stage, Stage::Watching(_)) {
            self.since = now;
        }
    }

    /// Hands over some of what it is told, and returns whether to go on.
    fn hand_on(&mut self, now: u64) -> bool
        ensures { self.new.said ≡ self.old.said }
    {
        if !self.is_sending() {
            return false;
        }
        match self.hand_piece() {
            Ok(0) => false,
            Ok(_) => {
                self.note_taken(now);
                true
            }
            Err(_) => {
                self.is_gone = true;
                false
            }
        }
    }

    /// Shuts down the write side once the answer is sent.
    fn end(&mut self)
        ensures { self.new.said ≡ self.old.said }
    {
        if !matches!(self.stage, Stage::Answered) || self.is_sending() {
            return;
        }
        if self.is_left {
            self.is_gone = true;
        } else {
            self.wire.end();
            self.stage = Stage::Ended;
        }
    }

    /// Hands over what it is told, as far as that goes at once.
    fn send(&mut self, now: u64)
        ensures { self.new.said ≡ self.old.said }
    {
        self.takes_more = true;
        for _ in 0..MOST_PIECES {
            if !self.hand_on(now) {
                self.takes_more = false;
                break;
            }
        }
        self.end();
    }

    /// Reads input and answers it, as far as that goes at once.
    pub fn serve(&mut self, alloc: Global, shown: &PageTexts, inbox: &mut Option<Inbox>, now: u64) {
        for _ in 0..MOST_PIECES {
            if !self.may_read || self.is_gone {
                break;
            }
            self.read(alloc, shown, inbox, now);
        }
        self.send(now);
    }

    /// Returns the number of the text that it may read.
    fn number_of(&self, shown: &PageTexts) -> u64
        ensures { result ≡ number_for self.now.is_signed shown.now }
    {
        if self.is_signed {
            shown.veiled.number
        } else {
            shown.number
        }
    }

    /// Tells it what is shown, in the text that it may read.
    fn tell_state(&mut self, alloc: Global, shown: &PageTexts)
        ensures { Tells self.old.server self.old.is_signed shown.now (said_in self.old.said) (said_in self.new.said) }
    {
        if self.is_sending() {
            return;
        }
        self.stage = Stage::Watching(self.number_of(shown));
        let said = self.said.told(&self.server, self.is_signed, shown);
        let text = told(alloc, &mut self.server, self.is_signed, shown);
        self.say(text, said);
    }

    /// Tells it that the station is there.
    fn tell_beat(&mut self, alloc: Global)
        ensures { (said_in self.new.said ≡ said_in self.old.said)
            ⊎ (said_in self.new.said ≡ said_in self.old.said ++ beat_text self.old.server) }
    {
        if self.is_sending() {
            return;
        }
        let said = self.said.beat(&self.server);
        let text = beat(alloc, &mut self.server);
        self.say(text, said);
    }

    /// Tells a watching viewer what is shown if that is new to it, or else, at a beat, that the station is there. Text that it
    /// hasn't taken yet comes first, so of several states it gets only the newest. An unsigned viewer is told nothing that a
    /// desk's scorer wrote.
    pub fn tell(&mut self, alloc: Global, shown: &PageTexts, is_beat: bool, now: u64)
        ensures { Tells self.old.server self.old.is_signed shown.now (said_in self.old.said) (said_in self.new.said) }
    {
        let Stage::Watching(number) = self.stage else {
            return;
        };
        if self.is_sending() {
            return;
        }
        if number != self.number_of(shown) {
            self.tell_state(alloc, shown);
        } else if is_beat {
            self.tell_beat(alloc);
        }
        self.since = now;
        self.send(now);
    }
}
