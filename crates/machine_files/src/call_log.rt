//! The calls of a file and their answers, which only contract clauses read. The log takes no memory, and never overflows.

ghost use Rattle.std.specs.Prelude.{◌≡◌, ◌∷◌, ◌++◌, [], Some};
ghost use Rattle.machine_files.specs.Calls.{Answers, CutTo, ReadFront, WriteAt};

use std::io;
use std::snapshot::Snapshot;

/// Some bytes, in order.
#[derive(Drop)]
pub enum ByteLog {
    Empty,
    More(Snapshot<ByteLog>, Snapshot<u8>),
}

impl ByteLog {
    ghost use Rattle.machine_files.specs.CallLogs.{bytes_in};

    /// Returns these bytes and one more.
    fn more(&self, byte: u8) -> ByteLog
        ensures { bytes_in result ≡ bytes_in self.now ++ byte ∷ [] }
    {
        ByteLog::More(Snapshot::of(self), Snapshot::of(&byte))
    }

    /// Returns the log of these bytes.
    fn of(bytes: &[u8]) -> ByteLog
        ensures { bytes_in result ≡ bytes.now }
    {
        let mut log = ByteLog::Empty;
        for byte in bytes {
            log = log.more(*byte);
        }
        log
    }
}

/// A call of a file.
#[derive(Drop)]
pub enum AskedLog {
    WriteAt(Snapshot<u64>, Snapshot<ByteLog>),
    CutTo(Snapshot<u64>),
    Sync,
    TakeName,
    ReadFront(Snapshot<ByteLog>),
}

impl AskedLog {
    ghost use Rattle.machine_files.specs.CallLogs.{asked_in};

    /// Returns the call that writes these bytes at this offset.
    pub fn write_at(at: u64, bytes: &[u8]) -> AskedLog
        ensures { asked_in result ≡ WriteAt at bytes.now }
    {
        let bytes = ByteLog::of(bytes);
        AskedLog::WriteAt(Snapshot::of(&at), Snapshot::of(&bytes))
    }

    /// Returns the call that cuts the file to this length.
    pub fn cut(len: u64) -> AskedLog
        ensures { asked_in result ≡ CutTo len }
    {
        AskedLog::CutTo(Snapshot::of(&len))
    }

    /// Returns the call that fills a buffer, which then has these bytes.
    pub fn read_front(bytes: &[u8]) -> AskedLog
        ensures { asked_in result ≡ ReadFront bytes.now }
    {
        let bytes = ByteLog::of(bytes);
        AskedLog::ReadFront(Snapshot::of(&bytes))
    }
}

/// All calls, in order: those that were done, and those that failed.
#[derive(Drop)]
pub enum CallLog {
    Empty,
    Done(Snapshot<CallLog>, Snapshot<AskedLog>),
    Failed(Snapshot<CallLog>, Snapshot<AskedLog>),
}

impl CallLog {
    ghost use Rattle.machine_files.specs.CallLogs.{asked_in, calls_in};

    /// Returns this log with one more call, which had this answer.
    pub fn answered(&self, asked: &AskedLog, answer: &io::Result<()>) -> CallLog
        ensures { Answers answer.now (asked_in asked.now) (Some (calls_in self.now)) (Some (calls_in result)) }
    {
        match answer {
            Ok(()) => CallLog::Done(Snapshot::of(self), Snapshot::of(asked)),
            Err(_) => CallLog::Failed(Snapshot::of(self), Snapshot::of(asked)),
        }
    }
}
