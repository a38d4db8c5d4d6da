//! Keys for each pair of stations: a station's file has two keys, from which its seals are made.

ghost use Rattle.std.specs.Prelude.{◌≡◌, ◌≤◌, IfOk, length};
ghost use Rattle.setup.specs.KeyOwners as owners;
ghost use Rattle.setup.specs.Keys as keys;

use crate::counting::are_same;
use crate::fault::StopFault;
use crate::key_fault::KeyFault;
use crate::key_owner::{KeyOwner, owner_of};
use crate::sealing::{FEWEST_DIFFERENT, different};
use agree_core::Asker;
use hex::encode_to_slice;
use seal::hmac;
use std::alloc::{AllocError, Global};

/// A key of a pair, as it stands in a file: 64 hex digits.
pub type KeyDigits = [u8; 64];

/// The length of a key file's first line, in bytes.
const OWNER: usize = 24;

/// Where the second key begins in a key file.
const SECOND: usize = 89;

/// The length of a key file's text in bytes, without the end of its last line.
const TEXT: usize = 153;

/// Returns a key as hex digits.
pub fn key_digits(key: &[u8; 32]) -> KeyDigits
    ensures { result ≡ keys.key_digits key.now }
{
    let mut digits = [0; 64];
    let _ = encode_to_slice(key.as_slice(), &mut digits);
    digits
}

/// Returns the key that a desk shares with a board (the first to the fourth), made from the second key in the desk's file:
/// HKDF-Expand (RFC 5869) with SHA-256, of 32 bytes.
pub fn board_key(key: &[u8], board: u8) -> KeyDigits
    requires { board ≤ 9 }
    ensures { result ≡ keys.board_key key.now board }
{
    let info = [b'b', b'o', b'a', b'r', b'd', b' ', b'0' + board, 1];
    key_digits(&hmac(key, info.as_slice()))
}

/// Returns the text of a file of two keys, without the end of its last line.
pub fn pair_text(
    alloc: Global,
    owner: KeyOwner,
    first: &[u8],
    second: &[u8],
) -> Result<Vec<u8>, AllocError>
    ensures { IfOk result (λ text. text.items ≡ keys.pair_text owner first.now second.now) }
{
    let mut text = Vec::new(alloc);
    text.extend_from_slice(owner.line())?;
    text.extend_from_slice(first)?;
    text.push(b'\n')?;
    text.extend_from_slice(second)?;
    Ok(text)
}

/// Returns the fault of a station whose file is this owner's.
fn fault_of(owner: KeyOwner) -> KeyFault {
    match owner {
        KeyOwner::DeskA => KeyFault::OfDeskA,
        KeyOwner::DeskB => KeyFault::OfDeskB,
        _ => KeyFault::OfBoard,
    }
}

/// Whether two stations are the same station.
fn is_station(station: Asker, other: Asker) -> bool
    ensures { result ≡ owners.is_station station other }
{
    matches!(
        (station, other),
        (Asker::A, Asker::A) | (Asker::B, Asker::B) | (Asker::Board, Asker::Board)
    )
}

/// Returns whose file this is. Refuses a file that is another station's, or that begins as no file of two keys.
fn expect_owner(text: &[u8], station: Asker) -> Result<KeyOwner, KeyFault>
    ensures { IfOk result (λ owner. owners.owner_station owner ≡ station) }
{
    match owner_of(text) {
        Some(owner) if is_station(owner.station(), station) => Ok(owner),
        Some(owner) => Err(fault_of(owner)),
        None => Err(KeyFault::NoPair),
    }
}

/// Whether all bytes are hex digits as a new key has them: 0 to 9 and a to f.
fn are_digits(line: &[u8]) -> bool {
    line.iter()
        .all(|byte| matches!(*byte, b'0'..=b'9' | b'a'..=b'f'))
}

/// Refuses a line that is no key: one that isn't all hex digits, or has fewer than 8 different ones.
fn expect_key(line: &[u8]) -> Result<(), KeyFault> {
    if !are_digits(line) {
        return Err(KeyFault::NoPair);
    }
    if different(line) < FEWEST_DIFFERENT {
        return Err(KeyFault::Alike);
    }
    Ok(())
}

/// Returns the two keys in the bytes of a station's file, after cutting the white space at its end.
pub fn pair_in(alloc: Global, bytes: &[u8], station: Asker) -> Result<(&[u8], &[u8]), StopFault>
    ensures { IfOk result (λ pair. keys.HasPairKeys bytes.now station pair.0.now pair.1.now) }
{
    let text = bytes.trim_ascii_end();
    let owner = expect_owner(text, station).map_err(|why| StopFault::Key(why))?;
    if text.len() != TEXT {
        return Err(StopFault::Key(KeyFault::NoPair));
    }
    let (first, second) = (&text[OWNER..SECOND - 1], &text[SECOND..]);
    expect_key(first).map_err(|why| StopFault::Key(why))?;
    expect_key(second).map_err(|why| StopFault::Key(why))?;
    let written = pair_text(alloc, owner, first, second)?;
    if !are_same(text, written.as_slice()) {
        return Err(StopFault::Key(KeyFault::NoPair));
    }
    Ok((first, second))
}
