//! What a command starts with, on this machine: its match sheet, its votes files, streams and links; and why one ends before
//! its end.
#![tactic(auto)]

mod copies;
mod counting;
mod fault;
mod gaps;
mod key_fault;
mod key_owner;
mod opening;
mod pair_keys;
mod sealing;
mod sheet;
mod short_sheet;
mod twins;
mod unfit_keys;
mod votes_file;

pub use crate::copies::{CopiedDisk, Kept, paired_disk, tell_copies};
pub use crate::counting::{Counting, compared};
pub use crate::fault::{StopFault, Stopped, TURNS, print_fault, print_in_words, printable};
pub use crate::gaps::{Gaps, fill_gaps};
pub use crate::key_fault::KeyFault;
pub use crate::key_owner::{KEY_OWNERS, KeyOwner};
pub use crate::opening::{Output, bytes_at, old_votes_at, open_input, output, sheet_at};
pub use crate::pair_keys::{KeyDigits, board_key, key_digits, pair_text};
pub use crate::sealing::{Sealing, StationLink, station_of};
pub use crate::sheet::sheet_run;
pub use crate::short_sheet::{
    LONGEST_SHEET, SheetFile, card_sheet_at, handed_fault, sheet_file_at, short_sheet_at,
    short_sheet_bytes, short_sheet_of, stations_at, tell_station,
};
pub use crate::twins::tell_twins;
pub use crate::votes_file::{
    VotesDisk, empty_disk, kept_votes, new_disk_at, renewed_disk, with_cause, with_copys_cause,
};
