//! The nonces that are out: given, and not yet used or forgotten.

ghost use Rattle.std.specs.Prelude.{◌≡◌};
ghost use Rattle.posts.specs.Posts as posts;

use arrayvec::ArrayVec;

/// The largest number of nonces that are out.
pub const MOST_OUT: usize = 64;

/// The nonces that are out, the oldest first.
pub type Nonces = ArrayVec<u64, 64>;

/// Adds a nonce to those that are out. If they are full, the oldest is forgotten.
pub fn put(out: &mut Nonces, nonce: u64)
    ensures { out.new.items ≡ posts.with_given out.old.items nonce }
{
    if out.is_full() {
        let _oldest = out.remove(0);
    }
    out.push(nonce);
}

/// Whether a nonce is out.
pub fn is_out(out: &Nonces, nonce: u64) -> bool
    ensures { result ≡ posts.is_out out.now.items nonce }
{
    out.as_slice().contains(&nonce)
}

/// Takes a nonce off those that are out.
pub fn let_go(out: &mut Nonces, nonce: u64)
    ensures { out.new.items ≡ posts.without nonce out.old.items }
{
    out.retain(|each| *each != nonce);
}
