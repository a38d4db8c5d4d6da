//! The limit on the size of this user's files.

use libc::getrlimit;
use libc::types::rlimit;

/// The limit on a file's size, by its number on Linux. The C library's own name for it isn't declared here.
const FILE_SIZE: i32 = 1;

/// Whether a file may have this many bytes. Past the limit the system would end the process by a signal, so no such write
/// may be asked for. If the system names no limit, there is none.
pub fn may_have(len: u64) -> bool {
    let mut limit = rlimit {
        rlim_cur: 0,
        rlim_max: 0,
    };
    getrlimit(FILE_SIZE, &mut limit) != 0 || len <= limit.rlim_cur
}
