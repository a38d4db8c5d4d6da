//! `ground migrate` writes the votes of an old file to a new one.

ghost use Rattle.std.specs.Prelude.{◌≡◌, ◌≢◌, ◌≤◌, ◌⊎◌, length, Err, IfOk, IfErr, OnOk};
ghost use Rattle.streams.specs.Watched.{IsHandedOn, Prints, TellsFailure};
ghost use Rattle.entry_log.specs.Disk.{Never, only};
ghost use Rattle.entry_log.specs.Format.{room};
ghost use Rattle.entry_log.specs.Version2.{version_2};
ghost use Rattle.entry_log.specs.declared.slot.TheConstants.{MAX_SLOTS};
ghost use Rattle.agree_core.specs.Ballots.{desk_number};
ghost use Rattle.vote_store.specs.Migrated.{IsMigrated, answer_of};
ghost use Rattle.commands.specs.Migrate.{Leaves, WhyNotMigrated, migrated_line, old_left};
ghost use Rattle.setup.specs.Ends.{EndsWriting};

use agree_core::DeskId;
use entry_log::Disk;
use machine_files::FileDisk;
use setup::{StopFault, Stopped, VotesDisk, new_disk_at, old_votes_at, output, sheet_at};
use std::alloc::Global;
use std::fs::File;
use streams::{Sink, Watched, WriteFailed};
use vote_store::{Migrated, Refusal, migrate};

/// Why `migrate` stops early.
#[derive(Clone, Copy)]
pub enum MigrateFault {
    /// Memory was refused.
    NoMemory,
    /// A write failed.
    Write,
    /// The disk of a votes file failed.
    Device,
    /// A votes file is refused.
    Votes(Refusal),
}

impl From<Refusal> for MigrateFault {
    ghost use Rattle.commands.specs.Migrate.{of_votes};

    ghost from_gives = { λ why fault. fault ≡ of_votes why };

    fn from(why: Refusal) -> Self {
        match why {
            Refusal::NoMemory => MigrateFault::NoMemory,
            Refusal::File(entry_log::Refusal::Device) => MigrateFault::Device,
            _ => MigrateFault::Votes(why),
        }
    }
}

impl From<MigrateFault> for StopFault {
    ghost use Rattle.commands.specs.Migrate.{stop_of};

    ghost from_gives = { λ why fault. fault ≡ stop_of why };

    fn from(why: MigrateFault) -> Self {
        match why {
            MigrateFault::NoMemory => StopFault::NoMemory,
            MigrateFault::Write | MigrateFault::Device => StopFault::Write,
            MigrateFault::Votes(why) => StopFault::Votes(why),
        }
    }
}

/// Prints how many votes the new file has.
fn print_migrated<W: Sink>(out: &mut Watched<W>, votes: u32) -> Result<(), WriteFailed>
    ensures text { OnOk result (Prints W.contents out.old out.new (migrated_line votes)) }
    ensures handed_on { OnOk result (IsHandedOn W.calls out.new) }
    ensures failed { TellsFailure result out.old out.new }
{
    writeln!(out, "migrated {votes}")?;
    out.flush()
}

/// `ground migrate`: writes the votes of a desk's old file, of version 1, to a new file of version 2 on an empty disk, and
/// prints how many. Refuses whatever opening the old file refuses, and then a new disk that has a file. Returns both disks
/// with either answer: the old one reads as before, and after a refusal the new one is unchanged. After `Device` don't use
/// the new file; after `Write` it is whole, and only the line about it is missing.
pub fn migrate_run<D: Disk + Drop, E: Disk + Drop, W: Sink>(
    alloc: Global,
    desk: DeskId,
    game: u64,
    old: D,
    new: E,
    out: &mut Watched<W>,
) -> Result<Migrated<D, E>, (MigrateFault, D, E)>
    ensures migrated { IfOk result (λ migrated.
        IsMigrated (desk_number desk) game (D.seen old) (E.images migrated.new) migrated.votes) }
    ensures written { IfOk result (λ migrated.
        Prints W.contents out.old out.new (migrated_line migrated.votes)) }
    ensures only_empty { OnOk result (length (E.seen new) ≡ 0) }
    ensures old_seen { D.seen (old_left result) ≡ D.seen old }
    ensures old_images { (D.images (old_left result) ≡ D.images old)
        ⊎ (D.images (old_left result) ≡ only (D.seen old)) }
    ensures left { IfErr result (λ ended. Leaves (desk_number desk) game (D.seen old) E.seen E.images new
        ended.0 ended.2) }
    ensures why { IfErr (answer_of result) (WhyNotMigrated (desk_number desk) game (D.seen old) (E.seen new)) }
    // Where neither disk has a fault due, and the new one has room, no disk fails.
    ensures calm { (D.faults old).due ≡ Never → (E.faults new).due ≡ Never
        → room version_2 MAX_SLOTS ≤ E.cap new → answer_of result ≢ Err MigrateFault.Device }
    ensures writes { EndsWriting W.calls MigrateFault.Write (answer_of result) out.old out.new }
{
    let migrated = match migrate(alloc, old, new, desk, game) {
        Ok(migrated) => migrated,
        Err((why, old, new)) => return Err((MigrateFault::from(why), old, new)),
    };
    match print_migrated(out, migrated.votes) {
        Ok(()) => Ok(migrated),
        Err(_) => Err((MigrateFault::Write, migrated.old, migrated.new)),
    }
}

/// Closes both files of a migration.
fn close(_old: FileDisk<File>, _new: VotesDisk<'_>) {}

/// Runs `migrate` from an old votes file to a new one.
#[inline(never)]
pub fn start_migrate<'a>(
    rt: &HostRuntime,
    sheet: &'a str,
    desk: DeskId,
    from: &'a str,
    to: &'a str,
) -> Result<bool, Stopped<'a>> {
    let game = sheet_at(rt, sheet)?.game();
    let mut writer = output(rt)?;
    let old = old_votes_at(rt, from, desk, game)?;
    let new = new_disk_at(rt, to)?;
    match migrate_run(rt.alloc(), desk, game, old, new, &mut writer) {
        Ok(Migrated { old, new, .. }) => {
            close(old, new);
            Ok(false)
        }
        Err((fault, old, new)) => {
            close(old, new);
            Err(Stopped::at(to, StopFault::from(fault)))
        }
    }
}
