//! Planned faults for a desk whose disk is in memory.

ghost use Rattle.std.specs.Prelude.{◌-◌, ◌≤◌};

use crate::desk::Desk;
use corrections::BookOf;
use entry_log::{GatedSlots, MemDisk, Version};

impl<V: Version, B: BookOf + Drop> Desk<GatedSlots<V, MemDisk>, B> {
    ghost use Rattle.entry_log.specs.MemDisk.{SetsPlan};
    ghost use Rattle.entry_log.specs.declared.mem_disk.plan.Plan.TheVariants.{Fail, Stop};
    ghost use Rattle.desk.specs.Desk.{SameOwner, SameState, disk_of};

    /// Plans that the n-th device call from now on, counted from 1, fails.
    pub fn fail_at(&mut self, n: u32)
        requires { 1 ≤ n }
        ensures disk { SetsPlan (Fail (n - 1)) (disk_of self.old) (disk_of self.new) }
        ensures state { SameState self.old self.new }
        ensures owner { SameOwner self.old self.new }
    {
        self.votes.fail_at(n);
    }

    /// Plans that the n-th device call from now on, counted from 1, and all later ones fail, until the disk is
    /// killed or loses power.
    pub fn stop_at(&mut self, n: u32)
        requires { 1 ≤ n }
        ensures disk { SetsPlan (Stop (n - 1)) (disk_of self.old) (disk_of self.new) }
        ensures state { SameState self.old self.new }
        ensures owner { SameOwner self.old self.new }
    {
        self.votes.stop_at(n);
    }
}
