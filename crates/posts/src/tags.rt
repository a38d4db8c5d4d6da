//! The tags of posts and passes.

ghost use Rattle.std.specs.Prelude.{◌≡◌, ◌↔◌, ◌≤◌, ◌+◌, ◌++◌, IsTrue, decimal, length};
ghost use Rattle.arrayvec.specs.ArrayVec.{array_vec_len};
ghost use Rattle.posts.specs.Texts as texts;

use agree_core::Position;
use arrayvec::ArrayVec;
use itoa::Buffer;
use seal::hmac;

/// The length of a tag, in bytes.
const TAG: usize = 32;

/// What a tag or keystream block is made from; at most a nonce of 20 digits, a position of 21, a line of 128 and two blanks.
pub type Tagged = ArrayVec<u8, 171>;

/// Whether two tags are equal. Takes the same time wherever they differ.
pub fn is_same(tag: &[u8; 32], other: &[u8; 32]) -> bool
    ensures { IsTrue result ↔ (tag.now ≡ other.now) }
{
    let mut different = 0;
    for i in 0..TAG {
        different |= tag[i] ^ other[i];
    }
    different == 0
}

/// Appends bytes, for which there is room.
pub fn put(text: &mut Tagged, bytes: &[u8])
    requires { array_vec_len text.old + length bytes.now ≤ 171 }
    ensures items { text.new.items ≡ text.old.items ++ bytes.now }
    ensures len { array_vec_len text.new ≡ array_vec_len text.old + length bytes.now }
{
    let _fits = text.try_extend_from_slice(bytes);
}

/// Appends a number of at most ten digits.
fn put_small(text: &mut Tagged, number: u32)
    requires { array_vec_len text.old + 10 ≤ 171 }
    ensures items { text.new.items ≡ text.old.items ++ decimal number }
    ensures len { array_vec_len text.new ≤ array_vec_len text.old + 10 }
{
    let mut digits = Buffer::new();
    put(text, digits.format(number).as_bytes());
}

/// Appends a position.
fn put_place(text: &mut Tagged, at: Position)
    requires { array_vec_len text.old + 21 ≤ 171 }
    ensures items { text.new.items ≡ text.old.items ++ texts.place_text at }
    ensures len { array_vec_len text.new ≤ array_vec_len text.old + 21 }
{
    put_small(text, at.place);
    put(text, b".");
    put_small(text, at.round);
}

/// Returns the text that the tag of a line is made from.
fn tagged(nonce: u64, at: Position, line: &[u8]) -> Tagged
    requires { length line.now ≤ 128 }
    ensures { result.items ≡ texts.tagged nonce at line.now }
{
    let mut text = ArrayVec::new();
    let mut digits = Buffer::new();
    put(&mut text, digits.format(nonce).as_bytes());
    put(&mut text, b" ");
    put_place(&mut text, at);
    put(&mut text, b" ");
    put(&mut text, line);
    text
}

/// Returns the tag of a line for a position, with this nonce.
pub fn tag_of(secret: &[u8; 16], nonce: u64, at: Position, line: &[u8]) -> [u8; 32]
    requires { length line.now ≤ 128 }
    ensures { result ≡ texts.tag_of secret.now nonce at line.now }
{
    hmac(secret.as_slice(), tagged(nonce, at, line).as_slice())
}

/// Returns the tag of a pass with this nonce.
pub fn pass_tag(secret: &[u8; 16], nonce: u64) -> [u8; 32]
    ensures { result ≡ texts.pass_tag secret.now nonce }
{
    let mut text = Tagged::new();
    let mut digits = Buffer::new();
    put(&mut text, digits.format(nonce).as_bytes());
    put(&mut text, b" watch");
    hmac(secret.as_slice(), text.as_slice())
}
