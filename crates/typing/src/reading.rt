//! Keys, read from the bytes that a terminal sends.

ghost use Rattle.std.specs.Prelude.{◌≡◌};
ghost use Rattle.typing.specs.Keys as keys;

use crate::key::Key;

/// How much of a key's byte sequence was read.
#[derive(Clone, Copy)]
pub enum Reading {
    /// Nothing yet.
    Begun,
    /// The Escape byte.
    Escape,
    /// Escape and `[` or `O`.
    Opened,
    /// Escape, `[` or `O`, and `3`.
    Three,
    /// A sequence that belongs to no known key.
    Unknown,
}

/// Returns the key of a byte below 32, if there is one.
fn control(byte: u8) -> Option<Key>
    ensures { result ≡ keys.control byte }
{
    match byte {
        1 => Some(Key::Front),
        4 => Some(Key::Stop),
        5 => Some(Key::End),
        8 => Some(Key::Erase),
        10 | 13 => Some(Key::Enter),
        21 => Some(Key::EraseLine),
        23 => Some(Key::EraseWord),
        _ => None,
    }
}

/// Returns the key of a byte after `ESC [` or `ESC O`, if there is one.
fn arrow(byte: u8) -> Option<Key>
    ensures { result ≡ keys.arrow byte }
{
    match byte {
        b'A' => Some(Key::Earlier),
        b'B' => Some(Key::Later),
        b'C' => Some(Key::Right),
        b'D' => Some(Key::Left),
        b'H' => Some(Key::Front),
        b'F' => Some(Key::End),
        _ => None,
    }
}

/// Returns the key of a byte of 32 or more by itself, if there is one.
fn alone(byte: u8) -> Option<Key>
    ensures { result ≡ keys.alone byte }
{
    match byte {
        127 => Some(Key::Erase),
        128..=255 => None,
        _ => Some(Key::Sign(byte)),
    }
}

impl Reading {
    /// Returns the key that this byte completes, if any. A byte below 32 ends any sequence that was begun.
    pub fn key(self, byte: u8) -> Option<Key>
        ensures { result ≡ keys.key_of self byte }
    {
        if byte < 32 {
            return control(byte);
        }
        match self {
            Reading::Begun => alone(byte),
            Reading::Opened => arrow(byte),
            Reading::Three if byte == b'~' => Some(Key::Delete),
            _ => None,
        }
    }

    /// Returns the reading after this byte. A digit or a punctuation character (32 to 63) continues a sequence, any other byte
    /// ends it.
    pub fn behind(self, byte: u8) -> Reading
        ensures { result ≡ keys.reading_behind self byte }
    {
        if byte == 27 {
            return Reading::Escape;
        }
        match self {
            Reading::Escape if byte == b'[' || byte == b'O' => Reading::Opened,
            Reading::Opened if byte == b'3' => Reading::Three,
            Reading::Opened | Reading::Three | Reading::Unknown if 32 <= byte && byte < 64 => {
                Reading::Unknown
            }
            _ => Reading::Begun,
        }
    }
}
