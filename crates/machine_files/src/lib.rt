//! The machine's files: disks on real files, alone or as two that are kept alike, and texts that others read. Nothing is known
//! of what the machine does with its calls, so it is used through traits.
#![tactic(auto)]

mod call_log;
mod file_disk;
mod file_limit;
mod history;
mod host_file;
mod named_file;
mod pair;
mod renewal;
mod text_file;
mod write_fault;

pub use file_disk::{FileDisk, OpenFault};
pub use file_limit::may_have;
pub use host_file::{Host, NoFile};
pub use named_file::{LastFault, NamedFile};
pub use pair::Pair;
pub use renewal::{bytes_of, renewed};
pub use text_file::{Replaces, TextFile, TwoNames, WholeText, is_same_file};
pub use write_fault::{Cause, Name, WriteFault, cause_of};
