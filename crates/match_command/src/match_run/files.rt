//! The votes files of a match in a folder.

use setup::{StopFault, Stopped, VotesDisk, new_disk_at};
use std::fs::{self, File};
use std::io;

/// The most bytes of a votes file without a vote: a header and a gate.
const LONGEST_VOTELESS: u64 = 65;

/// The votes file of one desk of a match.
#[derive(Drop)]
struct VotesFile {
    path: String,
    /// Whether the file was there before the match.
    was_there: bool,
}

/// The votes files of both desks of a match.
pub struct MatchFiles<'a> {
    folder: &'a str,
    a: VotesFile,
    b: VotesFile,
}

// one drop step for the whole value, instead of one for each part
impl Drop for MatchFiles<'_> {
    fn drop(self) {
        let MatchFiles {
            folder: _,
            a: _,
            b: _,
        } = self;
    }
}

/// Returns the votes file of this name in a folder, which may not be there yet.
fn file_in<'a>(rt: &HostRuntime, folder: &'a str, name: &str) -> Result<VotesFile, Stopped<'a>> {
    match format!(in rt.alloc(); "{folder}/{name}") {
        Ok(path) => {
            let was_there = fs::symlink_metadata(rt, path.as_str()).is_ok();
            Ok(VotesFile { path, was_there })
        }
        Err(why) => Err(Stopped::at(folder, StopFault::from(why))),
    }
}

/// Removes a file without a vote, unless another process has locked it.
fn remove_voteless(rt: &HostRuntime, path: &str) -> io::Result<()> {
    let file = File::open(rt, path)?;
    file.try_lock()?;
    if file.metadata()?.len() <= LONGEST_VOTELESS {
        fs::remove_file(rt, path)?;
    }
    Ok(())
}

impl VotesFile {
    /// Opens the file as an empty disk, and makes the file if there is none.
    fn disk<'r, 'a>(
        &self,
        rt: &'r HostRuntime,
        folder: &'a str,
    ) -> Result<VotesDisk<'r>, Stopped<'a>> {
        new_disk_at(rt, self.path.as_str()).map_err(|stopped| Stopped {
            path: folder,
            fault: stopped.fault,
        })
    }

    /// Removes the file if it wasn't there before and still has no vote.
    fn take_back(&self, rt: &HostRuntime) {
        if !self.was_there {
            let _ = remove_voteless(rt, self.path.as_str());
        }
    }
}

impl<'a> MatchFiles<'a> {
    /// The files `a.votes` and `b.votes` in this folder. Neither is opened or made yet.
    pub fn in_folder(rt: &HostRuntime, folder: &'a str) -> Result<MatchFiles<'a>, Stopped<'a>> {
        Ok(MatchFiles {
            folder,
            a: file_in(rt, folder, "a.votes")?,
            b: file_in(rt, folder, "b.votes")?,
        })
    }

    /// Returns the folder that both files are in.
    pub fn folder(&self) -> &'a str {
        self.folder
    }

    /// Opens the file of desk A as a disk.
    pub fn disk_a<'r>(&self, rt: &'r HostRuntime) -> Result<VotesDisk<'r>, Stopped<'a>> {
        self.a.disk(rt, self.folder)
    }

    /// Opens the file of desk B as a disk.
    pub fn disk_b<'r>(&self, rt: &'r HostRuntime) -> Result<VotesDisk<'r>, Stopped<'a>> {
        self.b.disk(rt, self.folder)
    }

    /// Removes what a match that ended before its first vote has left: each file that wasn't there before and has no vote. Both
    /// disks have to be closed.
    pub fn take_back(&self, rt: &HostRuntime) {
        self.a.take_back(rt);
        self.b.take_back(rt);
    }
}
