//! The lines posted to a desk.

ghost use Rattle.std.specs.Prelude.{◌≡◌, ◌≢◌, ◌<◌, ◌∷◌, ◌+◌, [], IfSome, MatchResult, None, Some, if◌then◌else◌, length};
ghost use Rattle.posts.specs.Posts as posts;
ghost use Rattle.posts.specs.Posts.{is_same_place};
ghost use Rattle.posts.specs.Tickets as tickets;
ghost use Rattle.viewers.specs.Inboxes.{Adds, TypesNone, TypesOne};
ghost use Rattle.viewers.specs.Veiled.{IsVeiled};

use crate::asks::{Ask, Claim, Heading};
use crate::own::{Own, Veiled, hex_line};
use agree_core::Position;
use arrayvec::ArrayVec;
use posts::{Pass, Post, PostedLine, Posts, Refusal};
use std::alloc::Global;

/// The posted lines that a desk hasn't taken yet, and who may post.
#[derive(Drop)]
pub struct Inbox {
    posts: Posts,
    at: Position,
    /// Waiting lines: each is `Some`.
    lines: ArrayVec<Option<PostedLine>, 8>,
}

impl Inbox {
    /// Begins for a desk whose page has this secret, with no line posted.
    pub fn new(secret: [u8; 16]) -> Inbox
        ensures { result.lines.items ≡ [] }
    {
        Inbox {
            posts: Posts::new(secret),
            at: Position::FIRST,
            lines: ArrayVec::new(),
        }
    }

    /// Sets the desk's position. Drops the lines meant for another one, and returns how many.
    pub fn stand(&mut self, at: Position) -> usize
        ensures at { self.new.at ≡ at }
        ensures posts { self.new.posts ≡ self.old.posts }
        ensures lines { self.new.lines.items ≡ (if is_same_place self.old.at at then self.old.lines.items else []) }
        ensures dropped { result ≡ (if is_same_place self.old.at at then 0 else length self.old.lines.items) }
    {
        if self.at.place == at.place && self.at.round == at.round {
            return 0;
        }
        let count = self.lines.len();
        self.at = at;
        self.lines.clear();
        count
    }

    /// Whether a line waits.
    pub fn has_lines(&self) -> bool {
        !self.lines.is_empty()
    }

    /// Takes the oldest line, if there is one.
    pub fn next_line(&mut self) -> Option<PostedLine>
        ensures none { self.old.lines.items ≡ [] → (result ≡ None) × (self.new ≡ self.old) }
        ensures line { 0 < length self.old.lines.items → self.old.lines.items ≡ result ∷ self.new.lines.items }
    {
        if self.lines.is_empty() {
            return None;
        }
        self.lines.remove(0)
    }

    /// Gives out a nonce, if there is one left.
    fn give(&mut self) -> Ask
        ensures lines { self.new.lines ≡ self.old.lines }
    {
        match self.posts.give() {
            Some(nonce) => Ask::Given(nonce),
            None => Ask::Missing,
        }
    }

    /// Whether a pass is good. A pass types nothing.
    fn look_at(&mut self, pass: &Pass) -> bool
        ensures is_good { result ≡ posts.is_good_pass self.old.posts.secret self.old.posts.out pass.now }
        ensures out { self.new.posts.out ≡ posts.out_after_pass self.old.posts.secret self.old.posts.out pass.now }
        ensures lines { self.new.lines ≡ self.old.lines }
    {
        self.posts.look_at(pass)
    }

    /// Shows a square with this ticket in its link from now on.
    pub fn show(&mut self, ticket: [u8; 16], now: u64)
        ensures ticket { self.new.posts.ticket ≡ Some (record { key = ticket; since = now }) }
        ensures secret { self.new.posts.secret ≡ self.old.posts.secret }
        ensures lines { self.new.lines ≡ self.old.lines }
    {
        self.posts.show(ticket, now);
    }

    /// Changes the page's secret.
    pub fn renew(&mut self, secret: [u8; 16])
        ensures secret { self.new.posts.secret ≡ secret }
        ensures ticket { self.new.posts.ticket ≡ None }
        ensures lines { self.new.lines ≡ self.old.lines }
    {
        self.posts.renew(secret);
    }

    /// Encrypts what a desk tells only its scorer, under the next number.
    pub fn veil(&mut self, alloc: Global, own: &Own) -> Option<Veiled>
        ensures veiled { IfSome result (IsVeiled (Some self.old) own.now) }
        ensures secret { self.new.posts.secret ≡ self.old.posts.secret }
        ensures number { IfSome result (λ _. self.new.posts.number ≡ self.old.posts.number + 1) }
        ensures lines { self.new.lines ≡ self.old.lines }
    {
        let text = own.text(alloc).ok()?;
        let frame = self.posts.hide(alloc, text.as_slice())?;
        let text = hex_line(alloc, frame.bytes.as_slice()).ok()?;
        Some(Veiled {
            number: frame.number,
            text,
        })
    }

    /// Hands out the encrypted secret for a ticket's tag.
    fn hand_out(&mut self, tag: &[u8; 32], now: u64) -> Option<[u8; 16]>
        ensures handed { result ≡ tickets.handed self.old.posts.secret self.old.posts.ticket tag.now now }
        ensures ticket { self.new.posts.ticket ≡ tickets.ticket_after self.old.posts.ticket tag.now now }
        ensures lines { self.new.lines ≡ self.old.lines }
    {
        self.posts.hand_out(tag, now)
    }

    /// Judges a post: its line waits from now on, or the refusal is returned.
    fn posted(&mut self, post: &Post<'_>) -> Option<Refusal>
        ensures comes_to { MatchResult (posts.verdict self.old.posts.secret self.old.posts.out post.now self.old.at (length self.old.lines.items))
            (λ line. (result ≡ None) × Adds self.old.posts.secret self.old.at line self.old.lines.items self.new.lines.items)
            (λ why. (result ≡ Some why) × (self.new.lines ≡ self.old.lines)) }
        ensures out { self.new.posts.out ≡ posts.out_after self.old.posts.secret self.old.posts.out post.now }
    {
        match self.posts.judge(post, self.at, self.lines.len()) {
            Ok(line) => {
                self.lines.push(Some(line));
                None
            }
            Err(why) => Some(why),
        }
    }
}

/// Gives out a nonce for a post to a desk.
pub fn give(inbox: &mut Option<Inbox>) -> Ask {
    match inbox {
        Some(inbox) => inbox.give(),
        None => Ask::Missing,
    }
}

/// Takes a post with this encrypted line, and returns the answer: `Typed` if its line waits from now on.
pub fn take(inbox: &mut Option<Inbox>, heading: Heading, hidden: &[u8]) -> Ask
    ensures typed { result ≡ Ask.Typed → TypesOne inbox.old inbox.new }
    ensures other { result ≢ Ask.Typed → TypesNone inbox.old inbox.new }
{
    let Some(inbox) = inbox else {
        return Ask::Missing;
    };
    let post = Post {
        is_from_here: heading.is_from_here,
        stamp: heading.stamp,
        hidden,
    };
    match inbox.posted(&post) {
        None => Ask::Typed,
        Some(why) => Ask::Faulty(why.status()),
    }
}

/// Whether a pass to a desk's page is good.
pub fn is_passed(inbox: &mut Option<Inbox>, pass: &Pass) -> bool {
    match inbox {
        Some(inbox) => inbox.look_at(pass),
        None => false,
    }
}

/// Answers a request for the secret: encrypted by the ticket of the newest square, which is good once.
pub fn hand_out(inbox: &mut Option<Inbox>, claim: &Claim, now: u64) -> Ask {
    let Some(inbox) = inbox else {
        return Ask::Missing;
    };
    let handed = match claim.tag {
        Some(tag) if claim.is_from_here => inbox.hand_out(&tag, now),
        _ => None,
    };
    match handed {
        Some(hidden) => Ask::Handed(hidden),
        None => Ask::Faulty(403),
    }
}
