//! What ties processes to runs. These functions do nothing: each stands for the laws that it ensures.

ghost use Rattle.processes.specs.Files.{EmptyFilesShowNone};
ghost use Rattle.processes.specs.Laws.{BoardStepsInRun, DeskStepsInRun, FlowsAreRuns, FlowsHaveHeadline};
ghost use Rattle.processes.specs.Progress.{ProcessesGoOn};
ghost use Rattle.processes.specs.Stations.{BeginningIsStage, BoardLifeIsProcess, DeskLifeIsLife, DeskRunIsStage};
ghost use Rattle.processes.specs.Weaving.{WovenLivesFlow, WovenLivesHaveHeadline, WovenLivesPartNone, WovenLivesTellNone};
ghost use Rattle.processes.specs.Worked.{LivedHasExchange, LivedIsWoven};

use board::Board;
use corrections::BookOf;
use desk::{Desk, OpenRefusal};
use entry_log::{Disk, SlotsOf};

/// A moment of a board's or a desk's process, in a configuration that a run has come to, extends that run.
pub fn moments_extend_a_run<D: Disk>()
    ensures boards { BoardStepsInRun D.seen D.images }
    ensures desks { DeskStepsInRun D.seen D.images }
{}

/// If every datagram that came to a station and reads as a message of the match was sent by a station before, the moments of
/// two desks' and some boards' processes, with their ends and new beginnings, in the order in which they happened, are a run of
/// the definitions. So the headline holds of them.
pub fn every_flow_is_sound<D: Disk>()
    ensures runs { FlowsAreRuns D.seen D.images }
    ensures headline { FlowsHaveHeadline D.seen D.images }
{}

/// While no scorer types, no disk fails, and no process begins or ends, what happens to processes is such a run too, tick by
/// tick and message by message, from the stations' states then. So what goes on in every run goes on with them.
pub fn every_flow_goes_on<D: Disk>()
    ensures { ProcessesGoOn D.seen D.images }
{}

/// The lives of two desks and some boards that take only sealed datagrams, each process from its beginning to its end, put into
/// one order, are such moments, if whatever opened at a station was sealed by a station before. So the headline holds of them,
/// and no board drops a vote as one that shows that a desk's file lacks lines, nor tells so.
pub fn woven_lives_are_a_flow<D: Disk>()
    ensures flow { WovenLivesFlow D.seen D.images D.faults }
    ensures headline { WovenLivesHaveHeadline D.seen D.images D.faults }
    ensures whole { WovenLivesPartNone D.seen D.images D.faults }
    ensures tells { WovenLivesTellNone D.seen D.images D.faults }
{}

/// What `live::begin_desk` ensures of its answer is a beginning in a desk's life.
pub fn beginnings_are_stages<S: SlotsOf, B: BookOf>(
    made: &Result<Desk<S, B>, (OpenRefusal, S::Disk)>,
)
    ensures { BeginningIsStage made.now }
{}

/// What `live::run_desk` ensures of a desk is a stage of its life.
pub fn desk_runs_are_stages<S: SlotsOf, B: BookOf>(old: &Desk<S, B>, new: &Desk<S, B>)
    ensures { DeskRunIsStage old.now new.now }
{}

/// What `live::keep_desk`, which the program calls, ensures is a process of a desk's life, from its beginning to its end.
pub fn kept_desks_are_lives<D: Disk>()
    ensures { DeskLifeIsLife D.seen D.images D.faults }
{}

/// What `live::keep_board`, which the program calls, ensures of a new board is a process of its life.
pub fn kept_boards_are_lives<B: BookOf>(old: &Board<B>, new: &Board<B>)
    ensures { BoardLifeIsProcess B.content B.innings_a_side old.now new.now }
{}

/// An empty file of either version shows no votes.
pub fn empty_files_show_none()
    ensures { EmptyFilesShowNone }
{}

/// The premises of the law of woven lives can be met: by a desk that pens, is killed, begins in vain and begins, with another
/// desk and a board that are given its vote. Amid this the board has an exchange with both desks, which the law of what goes on
/// speaks of.
pub fn a_worked_life_is_woven()
    ensures lives { LivedIsWoven }
    ensures exchange { LivedHasExchange }
{}
