//! The stamp of a posted line: the position that it is meant for, its nonce and its tag.

ghost use Rattle.std.specs.Prelude.{◌≡◌, ◌<◌, ◌^◌, ℕ, List, None, Some, IfSome, MatchOption, MatchResult, decimal, length};
ghost use Rattle.std.specs.List.{after_first, before_first, position_or_len};
ghost use Rattle.hex.specs.Hex.{decode_sized};
ghost use Rattle.posts.specs.Texts as texts;

use agree_core::Position;
use hex::FromHex;
use itoa::Buffer;

/// The position, nonce and tag of a posted line.
#[derive(Clone, Copy)]
pub struct Stamp {
    /// The position that the line is meant for.
    pub at: Position,
    pub nonce: u64,
    pub tag: [u8; 32],
}

/// What a page sends with its request for events to prove that it has the secret.
#[derive(Clone, Copy)]
pub struct Pass {
    pub nonce: u64,
    pub tag: [u8; 32],
}

/// Parses a number in digits, without leading zeros.
fn number_in(text: &str) -> Option<u64>
    ensures only { IfSome result (λ n. text.now ≡ decimal n) }
    ensures each { (n : ℕ) → n < 2 ^ 64 → text.now ≡ decimal n → result ≡ Some n }
{
    let number = text.parse::<u64>().ok()?;
    if Buffer::new().format(number) == text {
        Some(number)
    } else {
        None
    }
}

/// Parses a number below 2 to the power of 32 in digits, without leading zeros.
fn small_in(text: &str) -> Option<u32>
    ensures only { IfSome result (λ n. text.now ≡ decimal n) }
    ensures each { (n : ℕ) → n < 2 ^ 32 → text.now ≡ decimal n → result ≡ Some n }
{
    u32::try_from(number_in(text)?).ok()
}

/// Cuts a text at its first point, if it has one.
fn cut(text: &str) -> Option<(&str, &str)>
    ensures { MatchOption result (position_or_len texts.is_point text.now ≡ length text.now)
        (λ parts. (parts.0.now ≡ before_first texts.is_point text.now)
        × (parts.1.now ≡ after_first texts.is_point text.now)
        × (position_or_len texts.is_point text.now < length text.now)) }
{
    text.split_once('.')
}

/// Parses a position, as `18.0`: a place, a point and a round.
pub fn place_in(text: &str) -> Option<Position>
    ensures only { IfSome result (λ at. text.now ≡ texts.place_text at) }
    ensures each { (place round : ℕ) → place < 2 ^ 32 → round < 2 ^ 32
        → text.now ≡ texts.place_text (record { place = place; round = round })
        → result ≡ Some (record { place = place; round = round }) }
{
    let (place, round) = cut(text)?;
    Some(Position {
        place: small_in(place)?,
        round: small_in(round)?,
    })
}

/// Parses a tag of 64 hex digits.
pub fn tag_in(text: &str) -> Option<[u8; 32]>
    ensures { MatchResult (decode_sized text.now 32) (λ tag. result ≡ Some tag) (λ _. result ≡ None) }
{
    <[u8; 32] as FromHex>::from_hex(text).ok()
}

impl Stamp {
    ghost use Rattle.posts.specs.Stamps.{IsStamp};

    /// Parses a stamp from the texts of three fields. Returns `None` if any of them is malformed.
    pub fn read(at: &str, nonce: &str, tag: &str) -> Option<Stamp>
        ensures only { IfSome result (IsStamp at.now nonce.now tag.now) }
        ensures each { (place round n : ℕ) (digest : List ℕ) → place < 2 ^ 32 → round < 2 ^ 32 → n < 2 ^ 64
            → IsStamp at.now nonce.now tag.now (record { at = record { place = place; round = round }; nonce = n; tag = digest })
            → result ≡ Some (record { at = record { place = place; round = round }; nonce = n; tag = digest }) }
    {
        Some(Stamp {
            at: place_in(at)?,
            nonce: number_in(nonce)?,
            tag: tag_in(tag)?,
        })
    }
}

impl Pass {
    ghost use Rattle.posts.specs.Stamps.{IsPass};

    /// Parses a pass from the texts of its nonce and its tag. Returns `None` if either is malformed.
    pub fn read(nonce: &str, tag: &str) -> Option<Pass>
        ensures only { IfSome result (IsPass nonce.now tag.now) }
        ensures each { (n : ℕ) (digest : List ℕ) → n < 2 ^ 64
            → IsPass nonce.now tag.now (record { nonce = n; tag = digest }) → result ≡ Some (record { nonce = n; tag = digest }) }
    {
        Some(Pass {
            nonce: number_in(nonce)?,
            tag: tag_in(tag)?,
        })
    }
}
