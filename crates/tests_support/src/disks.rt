//! Disks in memory, their faults, and what a power loss leaves.

ghost use Rattle.std.specs.Prelude.{◌≤◌};

use entry_log::{Choice, MemDisk};
use std::alloc::{AllocError, Global};

/// What a power loss may leave of unsynced bytes.
pub const CHOICES: [Choice; 5] = [
    Choice::Lost,
    Choice::Kept,
    Choice::Fill(0),
    Choice::Fill(0xa5),
    Choice::Fill(0xff),
];

/// Makes an empty disk of at most `cap` bytes. If an allocation fails, it tries once more.
pub fn new_disk(alloc: Global, cap: usize) -> Result<MemDisk, AllocError> {
    match MemDisk::new(alloc, cap) {
        Ok(disk) => Ok(disk),
        Err(_) => MemDisk::new(alloc, cap),
    }
}

/// Makes the disk's n-th call from now on fail, alone or with all later ones.
pub fn set_fault(disk: &mut MemDisk, n: u32, stops: bool)
    requires { 1 ≤ n }
{
    if stops {
        disk.stop_at(n);
    } else {
        disk.fail_at(n);
    }
}
