//! Laws on the stations that the program keeps. These functions do nothing: they stand for the laws that they ensure.

ghost use Rattle.desk_command.specs.Disks.{faults_of, file_of, images_of};
ghost use Rattle.processes.specs.Stations.{DeskLifeIsLife};
ghost use Rattle.processes.specs.Weaving.{WovenLivesFlow, WovenLivesHaveHeadline, WovenLivesPartNone, WovenLivesTellNone};
ghost use Rattle.sheet_stations.specs.InTurn.{LivesInTurnAreWoven};
ghost use Rattle.sheet_stations.specs.Matches.{LivesHaveHeadline};

use desk_command::DeskDisk;
use processes::{kept_desks_are_lives, woven_lives_are_a_flow};

/// For all lives that `start_desk` and `start_board` answered: if they were woven into one order, each desk began on what its
/// disk had then, and no vote opened at one of their sockets that none of them had sealed, then the headline holds of all that
/// happened, no board dropped a vote as one by which a file lacks lines, and while all is calm all goes on (`answered`).
///
/// The same holds of any lives on the disks of the program's desks, of a file alone or with a copy, from one process to the
/// next as a scorer begins it: what a desk was kept for is a process of its life, and woven lives are a flow.
pub fn kept_stations_agree()
    ensures answered { LivesHaveHeadline }
    ensures lives { DeskLifeIsLife file_of images_of faults_of }
    ensures flow { WovenLivesFlow file_of images_of faults_of }
    ensures headline { WovenLivesHaveHeadline file_of images_of faults_of }
    ensures whole { WovenLivesPartNone file_of images_of faults_of }
    ensures tells { WovenLivesTellNone file_of images_of faults_of }
{
    kept_desks_are_lives::<DeskDisk<'static>>();
    woven_lives_are_a_flow::<DeskDisk<'static>>();
}

/// The premise of `answered` can be met by lives of which one hears the other: one of desk A that hears no vote, and then one of
/// desk B that hears only votes that desk A's sent, each on a file without votes.
pub fn lives_in_turn_are_woven()
    ensures { LivesInTurnAreWoven }
{}
