//! Two desks with a file each, boards, and all messages that they have sent.

ghost use Rattle.std.specs.Prelude.{◌≡◌, ◌≤◌, IfErr, IfOk};
ghost use Rattle.headline.specs.Events.{IsEvent};
ghost use Rattle.schedule_replay.specs.inner.Sites.{IsWhole};
ghost use Rattle.headline.specs.Events.{station_of};
ghost use Rattle.headline.specs.declared.event.Station.TheVariants as stations;
ghost use Rattle.headline.specs.declared.version.FileVersion.TheVariants as versions;

mod reporting;

use crate::admission::admit;
use crate::boards::{empty_boards, give_board, no_board, tick_board, wipe_board};
use crate::seen::{Seen, WorldRefusal};
use crate::site::Site;
use agree_core::DeskId;
use board::Board;
use corrections::CheckedBook;
use headline::{Event, FileVersion, Station};
use std::alloc::{AllocError, Global};
use wire::Datagram;
use world_desks::AnyDesk;

/// Two desks with a file each, boards, and all messages that they have sent.
#[derive(Drop)]
pub struct World {
    alloc: Global,
    game: u64,
    innings_a_side: u32,
    a: Site,
    b: Site,
    boards: Vec<Board<CheckedBook>>,
    sent: Vec<Datagram>,
    ghost innings: { (1 ≤ innings_a_side) × (innings_a_side ≤ 2) },
    ghost a_whole: { IsWhole a },
    ghost b_whole: { IsWhole b },
}

impl World {
    ghost use Rattle.schedule_replay.specs.Lending.{LendsStations};
    ghost use Rattle.schedule_replay.specs.CodeWorlds.{BeginsWorld, RefusesTo, KeepsMatch, StepsTo};

    /// Creates a world of two new desks, each on its own disk with a file of version 2, and this many boards.
    pub fn new(
        alloc: Global,
        game: u64,
        innings_a_side: u32,
        boards: u8,
    ) -> Result<World, AllocError>
        requires innings { (1 ≤ innings_a_side) × (innings_a_side ≤ 2) }
        requires boards { boards ≤ 4 }
        ensures begins { IfOk result (BeginsWorld game innings_a_side versions.New boards) }
    {
        World::begin(alloc, FileVersion::New, game, innings_a_side, boards)
    }

    /// Creates such a world on files of version 1.
    pub fn old(
        alloc: Global,
        game: u64,
        innings_a_side: u32,
        boards: u8,
    ) -> Result<World, AllocError>
        requires innings { (1 ≤ innings_a_side) × (innings_a_side ≤ 2) }
        requires boards { boards ≤ 4 }
        ensures begins { IfOk result (BeginsWorld game innings_a_side versions.Old boards) }
    {
        World::begin(alloc, FileVersion::Old, game, innings_a_side, boards)
    }

    /// Creates two new desks on files of this version, and this many boards.
    fn begin(
        alloc: Global,
        version: FileVersion,
        game: u64,
        innings_a_side: u32,
        boards: u8,
    ) -> Result<World, AllocError>
        requires { (1 ≤ innings_a_side) × (innings_a_side ≤ 2) }
        ensures { IfOk result (BeginsWorld game innings_a_side version boards) }
    {
        let a = Site::new(alloc, version, DeskId::A, game, innings_a_side)?;
        let b = Site::new(alloc, version, DeskId::B, game, innings_a_side)?;
        let boards = empty_boards(alloc, game, innings_a_side, boards)?;
        Ok(World {
            alloc,
            game,
            innings_a_side,
            a,
            b,
            boards,
            sent: Vec::new(alloc),
        })
    }

    /// Takes one event. The world refuses it by `NoStation`, `Down`, `Up`, `NoMessage`, `WorldFull` and `NoMemory`, in this
    /// order, and then stays as `WorldRefusal` says; a station's own refusal is an outcome.
    pub fn step(&mut self, event: &Event) -> Result<Seen, WorldRefusal>
        requires event { IsEvent event.now }
        ensures step { IfOk result (λ seen. StepsTo event.now self.old seen self.new) }
        ensures refused { IfErr result (λ why. RefusesTo event.now self.old why self.new) }
        ensures same { KeepsMatch self.old self.new }
    {
        match event.station() {
            Station::Desk(desk) => self.at_desk(desk, event),
            Station::Board(number) => self.at_board(number, event),
        }
    }

    /// Lends desk A and desk B, if they run, and the boards, for reading.
    pub fn stations(
        &self,
    ) -> (
        Option<AnyDesk<'_>>,
        Option<AnyDesk<'_>>,
        &[Board<CheckedBook>],
    )
        ensures { LendsStations self.now result.0 result.1 result.2.now }
    {
        (self.a.lend(), self.b.lend(), self.boards.as_slice())
    }

    /// Takes or refuses an event at a desk.
    fn at_desk(&mut self, desk: DeskId, event: &Event) -> Result<Seen, WorldRefusal>
        requires event { IsEvent event.now }
        requires here { station_of event.now ≡ stations.Desk desk }
        ensures step { IfOk result (λ seen. StepsTo event.now self.old seen self.new) }
        ensures refused { IfErr result (λ why. RefusesTo event.now self.old why self.new) }
        ensures same { KeepsMatch self.old self.new }
    {
        match desk {
            DeskId::A => self.a.take(&mut self.sent, event),
            DeskId::B => self.b.take(&mut self.sent, event),
        }
    }

    /// Takes or refuses an event at a board.
    fn at_board(&mut self, number: u8, event: &Event) -> Result<Seen, WorldRefusal>
        requires event { IsEvent event.now }
        requires here { station_of event.now ≡ stations.Board number }
        ensures step { IfOk result (λ seen. StepsTo event.now self.old seen self.new) }
        ensures refused { IfErr result (λ why. RefusesTo event.now self.old why self.new) }
        ensures same { KeepsMatch self.old self.new }
    {
        let missing = no_board(self.boards.len(), number);
        match admit(event, missing, false, &mut self.sent) {
            Ok(()) => {}
            Err(why) => return Err(why),
        }
        let board = &mut self.boards[number as usize - 1];
        match *event {
            Event::Give(message, _) => Ok(give_board(board, &self.sent, message as usize)),
            Event::Tick(_) => Ok(tick_board(board, &mut self.sent)),
            Event::Wipe(_) => wipe_board(board, self.alloc, self.game, self.innings_a_side),
            _ => unreachable!(),
        }
    }
}
