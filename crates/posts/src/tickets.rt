//! The ticket in the link of a square: good once, and for two minutes.

ghost use Rattle.std.specs.Prelude.{◌≡◌, Some};
ghost use Rattle.posts.specs.Tickets as tickets;

use crate::tags::is_same;
use seal::hmac;

/// How long a ticket is good once its square is shown, in milliseconds.
pub const GOOD_FOR: u64 = 120_000;

/// The length of a secret, in bytes.
const SECRET: usize = 16;

/// The ticket in the link of a square.
#[derive(Clone, Copy)]
pub struct Ticket {
    key: [u8; 16],
    /// When its square was shown, in milliseconds of the desk's clock.
    since: u64,
}

/// Returns the tag which shows that its maker has the ticket.
fn ticket_tag(key: &[u8; 16]) -> [u8; 32]
    ensures { result ≡ tickets.ticket_tag key.now }
{
    hmac(key.as_slice(), b"ticket")
}

/// Returns the pad that encrypts a secret by a ticket.
fn pad_of(key: &[u8; 16]) -> [u8; 32]
    ensures { result ≡ tickets.pad_of key.now }
{
    hmac(key.as_slice(), b"secret")
}

/// Returns a secret XORed with a pad.
fn xored(secret: &[u8; 16], pad: &[u8; 32]) -> [u8; 16]
    ensures { result ≡ tickets.xored secret.now pad.now }
{
    let mut turned = [0; SECRET];
    for i in 0..SECRET {
        turned[i] = secret[i] ^ pad[i];
    }
    turned
}

impl Ticket {
    /// Makes a ticket whose square is shown now.
    pub fn new(key: [u8; 16], now: u64) -> Ticket
        ensures { result ≡ record { key = key; since = now } }
    {
        Ticket { key, since: now }
    }

    /// Whether this is the ticket's tag, and its time isn't over.
    pub fn is_good(&self, tag: &[u8; 32], now: u64) -> bool
        ensures { result ≡ tickets.is_good_ticket (Some self.now) tag.now now }
    {
        if now.saturating_sub(self.since) < GOOD_FOR {
            is_same(tag, &ticket_tag(&self.key))
        } else {
            false
        }
    }

    /// Returns a secret, encrypted by this ticket.
    pub fn hides(&self, secret: &[u8; 16]) -> [u8; 16]
        ensures { Some result ≡ tickets.hidden_by (Some self.now) secret.now }
    {
        xored(secret, &pad_of(&self.key))
    }
}
