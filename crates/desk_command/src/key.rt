//! `ground key`: new keys.

ghost use Rattle.std.specs.Prelude.{◌≡◌, ◌≤◌, ◌∷◌, ◌++◌, [], IfOk};
ghost use Rattle.setup.specs.Keys as keys;

use hex::encode_to_slice;
use machine_files::{Name, WriteFault, cause_of, may_have};
use setup::{
    KEY_OWNERS, KeyDigits, KeyOwner, StopFault, Stopped, board_key, key_digits, pair_text,
};
use std::alloc::{AllocError, Global};
use std::fs::{self, File, OpenOptions};
use std::io::{self, ErrorKind, Write};
use std::os::unix::fs::OpenOptionsExt;
use std::random::RandomSource;

/// The text of a key file: 64 hex digits and the end of a line.
type KeyText = [u8; 65];

/// Returns the text of a new key's file.
pub fn key_text(key: &[u8; 32]) -> KeyText
    ensures { result ≡ keys.key_line key.now }
{
    let mut text = [b'\n'; 65];
    let _ = encode_to_slice(key.as_slice(), &mut text[..64]);
    text
}

/// Returns the text of a file of two keys.
fn pair_lines(
    alloc: Global,
    owner: KeyOwner,
    first: &KeyDigits,
    second: &KeyDigits,
) -> Result<Vec<u8>, AllocError>
    ensures { IfOk result (λ text. text.items ≡ keys.pair_text owner first.now second.now ++ 10 ∷ []) }
{
    let mut text = pair_text(alloc, owner, first.as_slice(), second.as_slice())?;
    text.push(b'\n')?;
    Ok(text)
}

/// Makes a file that didn't exist, which only its owner may read.
fn own_file(rt: &HostRuntime, path: &str) -> io::Result<File> {
    OpenOptions::new()
        .write(true)
        .create_new(true)
        .mode(0o600)
        .open(rt, path)
}

/// Writes a text, and waits until it is on the disk.
fn keep(file: &mut File, text: &[u8]) -> io::Result<()> {
    file.write_all(text)?;
    file.sync_all()
}

/// Returns 32 bytes of the system's randomness.
fn new_key(rt: &HostRuntime) -> io::Result<[u8; 32]> {
    let mut key = [0; 32];
    rt.fill_bytes(&mut key[..])?;
    Ok(key)
}

/// Makes a key file with this text, and removes it again if it can't be written whole.
fn write_file(rt: &HostRuntime, path: &str, text: &[u8]) -> io::Result<()> {
    if !may_have(text.len() as u64) {
        return Err(io::Error::from(ErrorKind::FileTooLarge));
    }
    let mut file = own_file(rt, path)?;
    let kept = keep(&mut file, text);
    if kept.is_err() {
        let _ = fs::remove_file(rt, path);
    }
    kept
}

/// Makes the file of a new key.
fn write_key(rt: &HostRuntime, path: &str) -> io::Result<()> {
    let key = new_key(rt)?;
    write_file(rt, path, key_text(&key).as_slice())
}

/// The new keys of a match: the one of both desks, and the two from which desk A and desk B make the boards' keys.
#[derive(Drop)]
struct PairKeys {
    desks: KeyDigits,
    a: KeyDigits,
    b: KeyDigits,
}

impl PairKeys {
    /// Makes three keys from the system's randomness.
    fn new(rt: &HostRuntime) -> io::Result<PairKeys> {
        Ok(PairKeys {
            desks: key_digits(&new_key(rt)?),
            a: key_digits(&new_key(rt)?),
            b: key_digits(&new_key(rt)?),
        })
    }

    /// Returns the text of a board's file: the keys that it shares with both desks.
    fn board_text(&self, alloc: Global, owner: KeyOwner, board: u8) -> Result<Vec<u8>, AllocError>
        requires { board ≤ 9 }
        ensures { IfOk result (λ text. text.items ≡
            keys.pair_text owner (keys.board_key self.now.a board) (keys.board_key self.now.b board) ++ 10 ∷ []) }
    {
        let first = board_key(self.a.as_slice(), board);
        pair_lines(alloc, owner, &first, &board_key(self.b.as_slice(), board))
    }

    /// Returns the text of an owner's file: its two keys.
    fn text(&self, alloc: Global, owner: KeyOwner) -> Result<Vec<u8>, AllocError>
        ensures { IfOk result (λ text. text.items ≡ keys.pair_file self.now.desks self.now.a self.now.b owner) }
    {
        match owner {
            KeyOwner::DeskA => pair_lines(alloc, owner, &self.desks, &self.a),
            KeyOwner::DeskB => pair_lines(alloc, owner, &self.desks, &self.b),
            KeyOwner::Board1 => self.board_text(alloc, owner, 1),
            KeyOwner::Board2 => self.board_text(alloc, owner, 2),
            KeyOwner::Board3 => self.board_text(alloc, owner, 3),
            KeyOwner::Board4 => self.board_text(alloc, owner, 4),
        }
    }
}

/// Returns the path of a key file in a folder.
fn pair_path(alloc: Global, folder: &str, owner: KeyOwner) -> Result<String, AllocError> {
    let name = owner.file_name();
    format!(in alloc; "{folder}{name}")
}

/// Refuses a folder that has this owner's key file.
fn expect_new(rt: &HostRuntime, folder: &str, owner: KeyOwner) -> io::Result<()> {
    let path = pair_path(rt.alloc(), folder, owner)?;
    match fs::symlink_metadata(rt, path.as_str()) {
        Ok(_) => Err(io::Error::from(ErrorKind::AlreadyExists)),
        Err(why) if why.kind() == ErrorKind::NotFound => Ok(()),
        Err(why) => Err(why),
    }
}

/// Makes an owner's key file in a folder.
fn write_pair(rt: &HostRuntime, folder: &str, keys: &PairKeys, owner: KeyOwner) -> io::Result<()> {
    let path = pair_path(rt.alloc(), folder, owner)?;
    let text = keys.text(rt.alloc(), owner)?;
    write_file(rt, path.as_str(), text.as_slice())
}

/// Removes these owners' key files from a folder.
fn remove_each(rt: &HostRuntime, folder: &str, owners: &[KeyOwner]) {
    for owner in owners {
        if let Ok(path) = pair_path(rt.alloc(), folder, *owner) {
            let _ = fs::remove_file(rt, path.as_str());
        }
    }
}

/// Returns the fault of a file of new keys that can't be written.
fn pair_fault(owner: KeyOwner, error: &io::Error) -> StopFault {
    StopFault::PairKeys(owner, cause_of(error))
}

/// Makes all key files in a folder, or none.
fn write_each(rt: &HostRuntime, folder: &str, keys: &PairKeys) -> Result<(), StopFault> {
    for index in 0..KEY_OWNERS.len() {
        let owner = KEY_OWNERS[index];
        if let Err(why) = write_pair(rt, folder, keys, owner) {
            remove_each(rt, folder, &KEY_OWNERS[..index]);
            return Err(pair_fault(owner, &why));
        }
    }
    Ok(())
}

/// Makes the keys of a match in a folder that has none of their files.
fn write_pairs(rt: &HostRuntime, folder: &str) -> Result<(), StopFault> {
    for owner in KEY_OWNERS {
        expect_new(rt, folder, owner).map_err(|why| pair_fault(owner, &why))?;
    }
    let keys = PairKeys::new(rt).map_err(|why| pair_fault(KeyOwner::DeskA, &why))?;
    write_each(rt, folder, &keys)
}

/// Returns the fault of a new key that can't be written.
fn fault_of(error: &io::Error) -> StopFault {
    StopFault::File(WriteFault {
        name: Name::Own,
        why: cause_of(error),
    })
}

/// Whether this path is a folder.
fn is_folder(rt: &HostRuntime, path: &str) -> bool {
    fs::metadata(rt, path).is_ok_and(|found| found.is_dir())
}

/// `ground key`: writes a key from the system's randomness to a new file; or, into a folder, six files with keys for each pair:
/// both desks' and four boards'. A file that exists is refused and stays, and then none is written.
#[inline(never)]
pub fn start_key<'a>(rt: &HostRuntime, to: &'a str) -> Result<bool, Stopped<'a>> {
    let written = if is_folder(rt, to) {
        write_pairs(rt, to)
    } else {
        write_key(rt, to).map_err(|why| fault_of(&why))
    };
    match written {
        Ok(()) => Ok(false),
        Err(fault) => Err(Stopped::at(to, fault)),
    }
}
