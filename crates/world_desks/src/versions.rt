//! Code that serves files of both versions.

/// Runs the same code on a value with a file of version 1 or of version 2.
macro_rules! whichever {
    ($kind:ident, $value:expr, $it:ident => $done:expr) => {
        match $value {
            $kind::Old($it) => $done,
            $kind::New($it) => $done,
        }
    };
}

pub(crate) use whichever;
