//! A desk's site in the world.

ghost use Rattle.std.specs.Prelude.{◌≡◌, ◌+◌, ◌≤◌, ◌<◌, ◌++◌, IfOk, OnErr, OnOk, IsSome, None, Some, Err, List, length, map, vec_capacity, vec_len, false, true};
ghost use Rattle.headline.specs.Events.{IsEvent};
ghost use Rattle.schedule_replay.specs.Refusals.{is_desk};
ghost use Rattle.headline.specs.Events.{station_of};
ghost use Rattle.notation.specs.Written.{IsEntry};
ghost use Rattle.desk.specs.Answers.{replied};
ghost use Rattle.entry_log.specs.Disk.{IsImage, only};
ghost use Rattle.entry_log.specs.MemDisk.{cap_of, file_of, images_of, plan_of};
ghost use Rattle.entry_log.specs.declared.mem_disk.plan.Plan.TheVariants.{Calm};
ghost use Rattle.wire.specs.declared.datagram.Datagram.{Datagram};
ghost use Rattle.schedule_replay.specs.Answers.{given_seen, is_device, is_failing, is_fault, wants_memory};
ghost use Rattle.headline.specs.declared.event.Station.{Station as AStation};
ghost use Rattle.headline.specs.declared.event.Event.TheVariants as events;
ghost use Rattle.headline.specs.declared.version.FileVersion.TheVariants as versions;

mod reporting;

use crate::admission::admit;
use crate::seen::{Cause, Seen, WorldRefusal};
use agree_core::DeskId;
use desk::{OpenRefusal, Refusal};
use entry_log::{Choice, MemDisk};
use headline::{Event, Fault, FileVersion};
use notation::Entry;
use std::alloc::{AllocError, Global};
use vote_store::migrate;
use wire::{Datagram, MessageBytes, What};
use world_desks::{AnyDesk, WorldDesk, most_bytes};

/// A desk's site in the world: the desk while it runs, otherwise only its disk.
pub struct Site {
    alloc: Global,
    name: DeskId,
    game: u64,
    innings_a_side: u32,
    /// The version of the desk's file.
    version: FileVersion,
    desk: Option<WorldDesk>,
    /// The disk of a desk that is down.
    disk: Option<MemDisk>,
    /// How many of the votes in the file are the desk's, if the desk is down.
    votes: u32,
    /// The last fault asked for, until it is spent.
    due: Option<Fault>,
}

// one step for a caller that drops it, instead of one for each part
impl Drop for Site {
    fn drop(self) {
        let Site {
            alloc: _,
            name: _,
            game: _,
            innings_a_side: _,
            version: _,
            desk: _,
            disk: _,
            votes: _,
            due: _,
        } = self;
    }
}

fn is_device(why: Refusal) -> bool
    ensures { result ≡ is_device why }
{
    matches!(why, Refusal::Device)
}

fn is_fault(what: What) -> bool
    ensures { result ≡ is_fault what }
{
    matches!(what, What::Device)
}

/// The refusal of a file of version 2 where version 1 is needed.
const OTHER_VERSION: vote_store::Refusal = vote_store::Refusal::File(entry_log::Refusal::Version);

fn wants_memory(why: vote_store::Refusal) -> bool
    ensures { result ≡ wants_memory why }
{
    matches!(why, vote_store::Refusal::NoMemory)
}

fn is_failing(why: vote_store::Refusal) -> bool
    ensures { result ≡ is_failing why }
{
    matches!(why, vote_store::Refusal::File(entry_log::Refusal::Device))
}

/// Returns the outcome of a desk that was given bytes, unless its device failed.
pub fn given(what: What, reply: Option<MessageBytes>) -> Seen
    ensures { result ≡ given_seen what reply }
{
    match what {
        What::Bad(fault) => Seen::Bad(fault),
        What::Heard(heard) => Seen::Heard(heard),
        What::Asked => Seen::Asked(reply.is_some()),
        What::Device | What::Failed => Seen::Failed,
    }
}

/// Hands out the reply, if there is one.
fn hand_out(sent: &mut Vec<Datagram>, reply: Option<MessageBytes>)
    requires { vec_len sent.old + 1 ≤ vec_capacity sent.old }
    ensures { map (λ d. d.bytes) sent.new.items
        ≡ map (λ d. d.bytes) sent.old.items ++ replied reply }
{
    if let Some(bytes) = reply {
        sent.push(Datagram { bytes }).unwrap();
    }
}

/// Takes the power from a disk: its bytes are then one of its images, all synced, and no call is set to fail.
fn lose_power(disk: &mut MemDisk, choice: Choice)
    ensures image { IsImage (images_of disk.old) (file_of disk.new) }
    ensures images { images_of disk.new ≡ only (file_of disk.new) }
    ensures cap { cap_of disk.new ≡ cap_of disk.old }
    ensures plan { plan_of disk.new ≡ Calm }
{
    disk.power(choice);
}

impl Site {
    ghost use Rattle.std.specs.Prelude.{option_map};
    ghost use Rattle.world_desks.specs.Lent.{lent_desk};
    ghost use Rattle.schedule_replay.specs.Plans.{HasPlan, asks_fault};
    ghost use Rattle.schedule_replay.specs.inner.Sites.{AfterRefusal, BeginsSite, BreaksDown, IsWhole, KeepsDue, NotFoundBy, PutsDown, SameSite, SiteSteps, SiteTakes, SyncsSite, disk_at};

    /// Creates a desk on a new file of this version.
    pub fn new(
        alloc: Global,
        version: FileVersion,
        name: DeskId,
        game: u64,
        innings_a_side: u32,
    ) -> Result<Site, AllocError>
        requires { (1 ≤ innings_a_side) × (innings_a_side ≤ 2) }
        ensures { IfOk result (BeginsSite version name game innings_a_side) }
    {
        let desk = WorldDesk::create(alloc, version, name, game, innings_a_side)?;
        Ok(Site {
            alloc,
            name,
            game,
            innings_a_side,
            version,
            desk: Some(desk),
            disk: None,
            votes: 0,
            due: None,
        })
    }

    /// Lends the running desk for reading, or returns `None` if the desk is down.
    pub fn lend(&self) -> Option<AnyDesk<'_>>
        ensures { option_map lent_desk result ≡ self.now.desk }
    {
        match &self.desk {
            Some(desk) => Some(desk.lend()),
            None => None,
        }
    }

    /// Takes an event at this desk, or refuses it.
    pub fn take(&mut self, sent: &mut Vec<Datagram>, event: &Event) -> Result<Seen, WorldRefusal>
        requires event { IsEvent event.now }
        requires whole { IsWhole self.old }
        requires desk { is_desk (station_of event.now) ≡ true }
        ensures takes { SiteTakes event.now self.old sent.old.items result self.new sent.new.items }
        ensures planned { OnOk result (HasPlan event.now (disk_at self.new.desk self.new.disk)) }
        ensures counted { OnOk result (asks_fault event.now ≡ false → KeepsDue self.old self.new) }
        ensures same { SameSite self.old self.new }
        ensures whole { IsWhole self.new }
    {
        match admit(event, false, self.desk.is_none(), sent) {
            Ok(()) => {}
            Err(why) => return Err(why),
        }
        match *event {
            Event::Pen(_, entry) => Ok(self.pen(sent, &entry)),
            Event::Tick(_) => Ok(self.tick(sent)),
            Event::Give(message, _) => Ok(self.give(sent, message as usize)),
            Event::Kill(_) => Ok(self.kill()),
            Event::Power(_, choice) => Ok(self.power(choice)),
            Event::FailAt(_, n) => Ok(self.fail_at(n)),
            Event::StopAt(_, n) => Ok(self.stop_at(n)),
            Event::Open(_) => self.open(),
            Event::Migrate(_) => self.migrate(),
            Event::Wipe(_) => unreachable!(),
        }
    }

    /// Tells the running desk to pen an entry.
    pub fn pen(&mut self, sent: &mut Vec<Datagram>, entry: &Entry) -> Seen
        requires entry { IsEntry entry.now }
        requires whole { IsWhole self.old }
        requires running { IsSome self.old.desk }
        requires room { vec_len sent.old + 2 ≤ vec_capacity sent.old }
        ensures step { SiteSteps (events.Pen self.old.name entry.now)
            self.old sent.old.items result self.new sent.new.items }
        ensures counted { KeepsDue self.old self.new }
        ensures same { SameSite self.old self.new }
        ensures whole { IsWhole self.new }
    {
        let Some(desk) = &mut self.desk else {
            unreachable!()
        };
        match desk.pen(entry) {
            Ok(penned) => {
                let bytes = penned.send;
                sent.push(Datagram { bytes }).unwrap();
                Seen::Penned(penned.settled)
            }
            Err(why) => self.refuse(why),
        }
    }

    /// Gives the running desk a sent message.
    pub fn give(&mut self, sent: &mut Vec<Datagram>, message: usize) -> Seen
        requires whole { IsWhole self.old }
        requires running { IsSome self.old.desk }
        requires room { vec_len sent.old + 2 ≤ vec_capacity sent.old }
        requires sent { message < length sent.old.items }
        ensures step { (t : AStation) → SiteSteps (events.Give message t)
            self.old sent.old.items result self.new sent.new.items }
        ensures counted { KeepsDue self.old self.new }
        ensures same { SameSite self.old self.new }
        ensures whole { IsWhole self.new }
    {
        let datagram = sent[message];
        let Some(desk) = &mut self.desk else {
            unreachable!()
        };
        let received = desk.receive(&datagram.bytes);
        if is_fault(received.what) {
            return self.fail(Cause::Desk(Refusal::Device));
        }
        hand_out(sent, received.reply);
        given(received.what, received.reply)
    }

    /// Ticks the running desk, which sends what it has to send.
    pub fn tick(&self, sent: &mut Vec<Datagram>) -> Seen
        requires running { IsSome self.now.desk }
        requires room { vec_len sent.old + 2 ≤ vec_capacity sent.old }
        ensures step { (t : AStation) → SiteSteps (events.Tick t)
            self.now sent.old.items result self.now sent.new.items }
    {
        let Some(desk) = &self.desk else {
            unreachable!()
        };
        let out = desk.tick();
        let said = out.as_slice();
        sent.extend_from_slice(said).unwrap();
        Seen::Ticked(said.len() as u32)
    }

    /// Ends the running desk's process.
    pub fn kill(&mut self) -> Seen
        requires whole { IsWhole self.old }
        requires running { IsSome self.old.desk }
        ensures step { (sent : List Datagram) → SiteSteps (events.Kill self.old.name)
            self.old sent result self.new sent }
        ensures ended { self.new.due ≡ None }
        ensures planned { HasPlan (events.Kill self.old.name) (disk_at self.new.desk self.new.disk) }
        ensures same { SameSite self.old self.new }
        ensures whole { IsWhole self.new }
    {
        self.due = None;
        self.put_down();
        Seen::Done
    }

    /// Takes the power from the desk and its disk.
    pub fn power(&mut self, choice: Choice) -> Seen
        requires whole { IsWhole self.old }
        ensures step { (sent : List Datagram) → SiteSteps (events.Power self.old.name choice)
            self.old sent result self.new sent }
        ensures ended { self.new.due ≡ None }
        ensures planned { HasPlan (events.Power self.old.name choice) (disk_at self.new.desk self.new.disk) }
        ensures same { SameSite self.old self.new }
        ensures whole { IsWhole self.new }
    {
        self.due = None;
        self.put_down();
        if let Some(disk) = &mut self.disk {
            lose_power(disk, choice);
        }
        Seen::Done
    }

    /// Makes the desk's n-th device call from now on fail.
    pub fn fail_at(&mut self, n: u32) -> Seen
        requires n { 1 ≤ n }
        requires whole { IsWhole self.old }
        ensures step { (sent : List Datagram) → SiteSteps (events.FailAt self.old.name n)
            self.old sent result self.new sent }
        ensures planned { HasPlan (events.FailAt self.old.name n) (disk_at self.new.desk self.new.disk) }
        ensures same { SameSite self.old self.new }
        ensures whole { IsWhole self.new }
    {
        self.due = Some(Fault::Fail);
        if let Some(desk) = &mut self.desk {
            desk.fail_at(n);
        } else if let Some(disk) = &mut self.disk {
            disk.fail_at(n);
        }
        Seen::Done
    }

    /// Makes the desk's n-th device call from now on and all later ones fail.
    pub fn stop_at(&mut self, n: u32) -> Seen
        requires n { 1 ≤ n }
        requires whole { IsWhole self.old }
        ensures step { (sent : List Datagram) → SiteSteps (events.StopAt self.old.name n)
            self.old sent result self.new sent }
        ensures planned { HasPlan (events.StopAt self.old.name n) (disk_at self.new.desk self.new.disk) }
        ensures same { SameSite self.old self.new }
        ensures whole { IsWhole self.new }
    {
        self.due = Some(Fault::Stop);
        if let Some(desk) = &mut self.desk {
            desk.stop_at(n);
        } else if let Some(disk) = &mut self.disk {
            disk.stop_at(n);
        }
        Seen::Done
    }

    /// Opens the desk, which is down, from its file.
    pub fn open(&mut self) -> Result<Seen, WorldRefusal>
        requires whole { IsWhole self.old }
        requires down { self.old.desk ≡ None }
        ensures step { IfOk result (λ seen. (sent : List Datagram) →
            SiteSteps (events.Open self.old.name) self.old sent seen self.new sent) }
        ensures refused { OnErr result ((result ≡ Err WorldRefusal.NoMemory) × SyncsSite self.old self.new) }
        ensures counted { OnOk result (KeepsDue self.old self.new) }
        ensures same { SameSite self.old self.new }
        ensures whole { IsWhole self.new }
    {
        let disk = self.disk.take().unwrap();
        match WorldDesk::open(
            self.alloc,
            self.version,
            disk,
            self.name,
            self.game,
            self.innings_a_side,
        ) {
            Ok(desk) => {
                let entries = desk.book_len();
                self.desk = Some(desk);
                Ok(Seen::Opened(entries))
            }
            Err((why, disk)) => {
                self.disk = Some(disk);
                match why {
                    OpenRefusal::Votes(fault) => self.not_found(fault, Cause::Open(why)),
                    OpenRefusal::BadVotes { .. } => Ok(Seen::Refused(Cause::Open(why))),
                }
            }
        }
    }

    /// Rewrites the file of the desk, which is down, as version 2, on a disk of its own. A due fault counts only the calls of
    /// that disk.
    pub fn migrate(&mut self) -> Result<Seen, WorldRefusal>
        requires whole { IsWhole self.old }
        requires down { self.old.desk ≡ None }
        ensures step { IfOk result (λ seen. (sent : List Datagram) →
            SiteSteps (events.Migrate self.old.name) self.old sent seen self.new sent) }
        ensures refused { OnErr result ((result ≡ Err WorldRefusal.NoMemory) × SyncsSite self.old self.new) }
        ensures counted { OnOk result (KeepsDue self.old self.new) }
        ensures same { SameSite self.old self.new }
        ensures whole { IsWhole self.new }
    {
        match self.version {
            FileVersion::New => Ok(Seen::Refused(Cause::Migrate(OTHER_VERSION))),
            FileVersion::Old => self.renew(),
        }
    }

    /// Rewrites the file of version 1.
    fn renew(&mut self) -> Result<Seen, WorldRefusal>
        requires whole { IsWhole self.old }
        requires down { self.old.desk ≡ None }
        requires version { self.old.version ≡ versions.Old }
        ensures step { IfOk result (λ seen. (sent : List Datagram) →
            SiteSteps (events.Migrate self.old.name) self.old sent seen self.new sent) }
        ensures refused { OnErr result ((result ≡ Err WorldRefusal.NoMemory) × SyncsSite self.old self.new) }
        ensures counted { OnOk result (KeepsDue self.old self.new) }
        ensures same { SameSite self.old self.new }
        ensures whole { IsWhole self.new }
    {
        let mut new = MemDisk::new(self.alloc, most_bytes(FileVersion::New))?;
        let mut old = self.disk.take().unwrap();
        old.move_fault(&mut new);
        match migrate(self.alloc, old, new, self.name, self.game) {
            Ok(migrated) => {
                self.version = FileVersion::New;
                self.disk = Some(migrated.new);
                Ok(Seen::Migrated(migrated.votes))
            }
            Err((why, mut old, mut new)) => {
                new.move_fault(&mut old);
                self.disk = Some(old);
                self.not_found(why, Cause::Migrate(why))
            }
        }
    }

    /// Answers that the votes of the desk, which is down, aren't found: by `NoMemory` if memory ran out, otherwise by this
    /// cause; a failed device call spends the fault that was due.
    fn not_found(&mut self, why: vote_store::Refusal, cause: Cause) -> Result<Seen, WorldRefusal>
        requires whole { IsWhole self.old }
        ensures refused { NotFoundBy (wants_memory why) (is_failing why) cause self.old result self.new }
        ensures whole { IsWhole self.new }
    {
        if wants_memory(why) {
            Err(WorldRefusal::NoMemory)
        } else if is_failing(why) {
            Ok(self.fail(cause))
        } else {
            Ok(Seen::Refused(cause))
        }
    }

    /// Returns the outcome of a running desk's refusal.
    fn refuse(&mut self, why: Refusal) -> Seen
        requires whole { IsWhole self.old }
        ensures refused { AfterRefusal why self.old result self.new }
        ensures whole { IsWhole self.new }
    {
        if is_device(why) {
            self.fail(Cause::Desk(why))
        } else {
            Seen::Refused(Cause::Desk(why))
        }
    }

    /// Spends the fault that was due, after a device call failed, and returns this cause; if the fault was a stop, the desk
    /// goes down.
    fn fail(&mut self, cause: Cause) -> Seen
        requires whole { IsWhole self.old }
        ensures broken { BreaksDown self.old.due cause self.old result self.new }
        ensures whole { IsWhole self.new }
    {
        let stopped = self.due == Some(Fault::Stop);
        self.due = None;
        if stopped {
            self.put_down();
            Seen::Stopped
        } else {
            Seen::Refused(cause)
        }
    }

    /// Puts the desk down: its disk stays, and its process and the due faults end.
    fn put_down(&mut self)
        requires whole { IsWhole self.old }
        ensures down { PutsDown self.old self.new }
        ensures whole { IsWhole self.new }
    {
        match self.desk.take() {
            Some(desk) => {
                self.votes = desk.votes();
                let mut disk = desk.into_disk();
                disk.kill();
                self.disk = Some(disk);
            }
            None => {
                if let Some(disk) = &mut self.disk {
                    disk.kill();
                }
            }
        }
    }
}
