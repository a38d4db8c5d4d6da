//! Judges posts and passes of a page, and hands out its secret.

ghost use Rattle.std.specs.Prelude.{◌≡◌, ◌+◌, ◌<◌, ◌^◌, ◌≤◌, [], Err, IfOk, IsSome, MatchOption, MatchResult, None, Ok, OnOk, Some, length};
ghost use Rattle.std.specs.List.{list_all};
ghost use Rattle.posts.specs.Posts as posts;
ghost use Rattle.posts.specs.Tickets as tickets;
ghost use Rattle.posts.specs.Veils as veils;
ghost use Rattle.arrayvec.specs.ArrayVec.{array_vec_len};

use crate::nonces::{Nonces, is_out, let_go, put};
use crate::posted::{LineText, PostedLine};
use crate::refusal::Refusal;
use crate::stamp::{Pass, Stamp};
use crate::tags::{is_same, pass_tag, tag_of};
use crate::tickets::Ticket;
use crate::veil::{Frame, frame_of, open_line};
use agree_core::Position;
use arrayvec::ArrayVec;
use links::LINE_ROOM;
use screen::is_end;
use std::alloc::Global;
use std::marker::Model;
use std::snapshot::Snapshot;

/// The largest number of posted lines that may wait.
pub const MOST_WAITING: usize = 8;

/// A post of a page.
#[derive(Clone, Copy)]
pub struct Post<'p> {
    /// Whether it names this host, and comes from one of its pages or from no page.
    pub is_from_here: bool,
    /// The position, nonce and tag of its line, if it has them.
    pub stamp: Option<Stamp>,
    /// Its line, encrypted.
    pub hidden: &'p [u8],
}

/// A post that was made with the secret.
#[derive(Drop)]
struct Opened {
    stamp: Stamp,
    line: LineText,
}

/// Whether each byte of a text is printable ASCII.
fn is_plain(text: &[u8]) -> bool
    ensures { result ≡ list_all posts.is_printable text.now }
{
    text.iter().all(|byte| *byte >= 32 && *byte <= 126)
}

/// Whether a text may be a line: not empty, and printable ASCII alone, so that no terminal obeys any of it.
fn is_line(text: &[u8]) -> bool
    ensures { result ≡ posts.is_line text.now }
{
    if is_plain(text) {
        text.len() > 0
    } else {
        false
    }
}

/// Decrypts the line of a post with this stamp.
fn line_in(secret: &[u8; 16], stamp: &Stamp, hidden: &[u8]) -> LineText
    requires { length hidden.now ≤ 128 }
    ensures items { result.items ≡ posts.line_in secret.now (Some stamp.now) hidden.now }
    ensures len { array_vec_len result ≤ 128 }
{
    let mut line = LineText::new();
    let _fits = line.try_extend_from_slice(hidden);
    open_line(secret, &stamp.tag, line.as_mut_slice());
    line
}

/// Judges the line of a post that was made with the secret. Refuses in this order: `Malformed`, `Ends`, `Elsewhere`, `Busy`.
fn line_of(stamp: &Stamp, line: LineText, at: Position, waiting: usize) -> Result<LineText, Refusal>
    ensures { MatchResult result (λ posted. posts.line_of stamp.now line.items at waiting ≡ Ok posted.items)
        (λ why. posts.line_of stamp.now line.items at waiting ≡ Err why) }
{
    if !is_line(line.as_slice()) {
        return Err(Refusal::Malformed);
    }
    if is_end(line.as_slice()) {
        return Err(Refusal::Ends);
    }
    if stamp.at.place != at.place || stamp.at.round != at.round {
        return Err(Refusal::Elsewhere);
    }
    if waiting >= MOST_WAITING {
        return Err(Refusal::Busy);
    }
    Ok(line)
}

/// Who may type from a page: whoever has its secret, which is handed out for the ticket of a square. Each nonce is good for
/// one post.
#[derive(Drop)]
pub struct Posts {
    secret: [u8; 16],
    ticket: Option<Ticket>,
    out: Nonces,
    next: u64,
    /// The number of the next frame.
    number: u64,
}

impl Model for Posts {
    ghost use Rattle.posts.specs.Doors.{Door};

    ghost Value = { Door };

    ghost view = { λ p. record { secret = p.secret; ticket = p.ticket; out = (p.out).items; next = p.next; number = p.number } };
}

impl Posts {
    /// Begins with this secret, and with no ticket and no nonce out.
    pub fn new(secret: [u8; 16]) -> Posts
        ensures secret { result.secret ≡ secret }
        ensures ticket { result.ticket ≡ None }
        ensures out { result.out ≡ [] }
        ensures next { result.next ≡ 1 }
        ensures number { result.number ≡ 1 }
    {
        Posts {
            secret,
            ticket: None,
            out: ArrayVec::new(),
            next: 1,
            number: 1,
        }
    }

    /// Shows a square with this ticket from now on: the ticket before it is no longer good.
    pub fn show(&mut self, key: [u8; 16], now: u64)
        ensures ticket { self.new.ticket ≡ Some (record { key = key; since = now }) }
        ensures secret { self.new.secret ≡ self.old.secret }
        ensures out { self.new.out ≡ self.old.out }
        ensures next { self.new.next ≡ self.old.next }
        ensures number { self.new.number ≡ self.old.number }
    {
        self.ticket = Some(Ticket::new(key, now));
    }

    /// Changes the secret: no ticket, nonce or tag from before is good any longer.
    pub fn renew(&mut self, secret: [u8; 16])
        ensures secret { self.new.secret ≡ secret }
        ensures ticket { self.new.ticket ≡ None }
        ensures out { self.new.out ≡ [] }
        ensures next { self.new.next ≡ self.old.next }
        ensures number { self.new.number ≡ self.old.number }
    {
        self.secret = secret;
        self.ticket = None;
        self.out.clear();
    }

    /// Hands out the secret, encrypted by the ticket that is out, if the tag is that ticket's and its time isn't over. That
    /// uses up the ticket.
    pub fn hand_out(&mut self, tag: &[u8; 32], now: u64) -> Option<[u8; 16]>
        ensures handed { result ≡ tickets.handed self.old.secret self.old.ticket tag.now now }
        ensures ticket { self.new.ticket ≡ tickets.ticket_after self.old.ticket tag.now now }
        ensures secret { self.new.secret ≡ self.old.secret }
        ensures out { self.new.out ≡ self.old.out }
        ensures next { self.new.next ≡ self.old.next }
        ensures number { self.new.number ≡ self.old.number }
    {
        match self.ticket {
            None => None,
            Some(ticket) => {
                if !ticket.is_good(tag, now) {
                    return None;
                }
                self.ticket = None;
                Some(ticket.hides(&self.secret))
            }
        }
    }

    /// Gives out the next nonce. Returns `None`, and changes nothing, if all numbers are used up.
    pub fn give(&mut self) -> Option<u64>
        ensures given { MatchOption result (self.new ≡ self.old)
            (λ nonce. (nonce ≡ self.old.next) × (self.new.next ≡ self.old.next + 1)
            × (self.new.out ≡ posts.with_given self.old.out self.old.next)) }
        ensures some { self.old.next + 1 < 2 ^ 64 → IsSome result }
        ensures secret { self.new.secret ≡ self.old.secret }
        ensures ticket { self.new.ticket ≡ self.old.ticket }
        ensures number { self.new.number ≡ self.old.number }
    {
        let nonce = self.next;
        self.next = nonce.checked_add(1)?;
        put(&mut self.out, nonce);
        Some(nonce)
    }

    /// Encrypts a text with the secret, under the next number. Returns `None`, and changes nothing, if all numbers are used up
    /// or memory is refused.
    pub fn hide(&mut self, alloc: Global, text: &[u8]) -> Option<Frame>
        ensures hidden { MatchOption result (self.new ≡ self.old)
            (λ frame. (frame.number ≡ self.old.number) × (self.new.number ≡ self.old.number + 1)
            × (frame.bytes.items ≡ veils.frame self.old.secret self.old.number text.now)) }
        ensures secret { self.new.secret ≡ self.old.secret }
        ensures ticket { self.new.ticket ≡ self.old.ticket }
        ensures out { self.new.out ≡ self.old.out }
        ensures next { self.new.next ≡ self.old.next }
    {
        let number = self.number;
        let next = number.checked_add(1)?;
        let bytes = frame_of(alloc, &self.secret, number, text).ok()?;
        self.number = next;
        Some(Frame { number, bytes })
    }

    /// Opens a post from this host with this stamp. Refuses with `NotOut`, then with `WrongTag`.
    fn stamped(&self, stamp: Stamp, hidden: &[u8]) -> Result<Opened, Refusal>
        requires { length hidden.now ≤ 128 }
        ensures { MatchResult result
            (λ opened. (posts.stamped self.now.secret self.now.out (Some stamp)
            (posts.line_in self.now.secret (Some stamp) hidden.now) ≡ Ok opened.stamp)
            × (opened.line.items ≡ posts.line_in self.now.secret (Some stamp) hidden.now))
            (λ why. posts.stamped self.now.secret self.now.out (Some stamp)
            (posts.line_in self.now.secret (Some stamp) hidden.now) ≡ Err why) }
    {
        let line = line_in(&self.secret, &stamp, hidden);
        if !is_out(&self.out, stamp.nonce) {
            return Err(Refusal::NotOut);
        }
        let tag = tag_of(&self.secret, stamp.nonce, stamp.at, line.as_slice());
        if !is_same(&stamp.tag, &tag) {
            return Err(Refusal::WrongTag);
        }
        Ok(Opened { stamp, line })
    }

    /// Opens a post made with the secret. Refuses in this order: `Foreign`, `TooLong`, `Malformed`, `NotOut`, `WrongTag`.
    fn checked(&self, post: &Post<'_>) -> Result<Opened, Refusal>
        ensures { MatchResult result
            (λ opened. (posts.checked self.now.secret self.now.out post.now ≡ Ok opened.stamp)
            × (opened.line.items ≡ posts.line_of_post self.now.secret post.now))
            (λ why. posts.checked self.now.secret self.now.out post.now ≡ Err why) }
    {
        if !post.is_from_here {
            return Err(Refusal::Foreign);
        }
        if post.hidden.len() > LINE_ROOM {
            return Err(Refusal::TooLong);
        }
        match post.stamp {
            Some(stamp) => self.stamped(stamp, post.hidden),
            None => Err(Refusal::Malformed),
        }
    }

    /// Judges a post for a desk at this position, where this many lines wait: returns its line, or why it is refused. A post
    /// made with the secret uses up its nonce, whatever becomes of its line; no other post does.
    pub fn judge(
        &mut self,
        post: &Post<'_>,
        at: Position,
        waiting: usize,
    ) -> Result<PostedLine, Refusal>
        ensures verdict { MatchResult result
            (λ line. posts.verdict self.old.secret self.old.out post.now at waiting ≡ Ok line.text.items)
            (λ why. posts.verdict self.old.secret self.old.out post.now at waiting ≡ Err why) }
        ensures line { IfOk result (λ line. line.text.items ≡ posts.line_of_post self.old.secret post.now) }
        ensures by { IfOk result (λ line. (line.secret).value ≡ self.old.secret) }
        ensures with { IfOk result (λ line. (line.out).value.items ≡ self.old.out) }
        ensures at { IfOk result (λ line. line.at ≡ at) }
        ensures room { OnOk result (waiting < MOST_WAITING) }
        ensures out { self.new.out ≡ posts.out_after self.old.secret self.old.out post.now }
        ensures secret { self.new.secret ≡ self.old.secret }
        ensures ticket { self.new.ticket ≡ self.old.ticket }
        ensures next { self.new.next ≡ self.old.next }
        ensures number { self.new.number ≡ self.old.number }
    {
        let Opened { stamp, line } = self.checked(post)?;
        let out = Snapshot::of(&self.out);
        let_go(&mut self.out, stamp.nonce);
        let text = line_of(&stamp, line, at, waiting)?;
        Ok(PostedLine {
            text,
            at,
            secret: Snapshot::of(&self.secret),
            out,
            stamp: Snapshot::of(&stamp),
        })
    }

    /// Whether a pass is good; if so, its nonce is used up.
    pub fn look_at(&mut self, pass: &Pass) -> bool
        ensures is_good { result ≡ posts.is_good_pass self.old.secret self.old.out pass.now }
        ensures out { self.new.out ≡ posts.out_after_pass self.old.secret self.old.out pass.now }
        ensures secret { self.new.secret ≡ self.old.secret }
        ensures ticket { self.new.ticket ≡ self.old.ticket }
        ensures next { self.new.next ≡ self.old.next }
        ensures number { self.new.number ≡ self.old.number }
    {
        if !is_out(&self.out, pass.nonce) {
            return false;
        }
        let tag = pass_tag(&self.secret, pass.nonce);
        if !is_same(&pass.tag, &tag) {
            return false;
        }
        let_go(&mut self.out, pass.nonce);
        true
    }
}
