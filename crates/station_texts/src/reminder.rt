//! What a desk's scorer is told of the other desk when there is no news.

/// What a desk's scorer is told of the other desk, by the time since it was last heard.
#[derive(Clone, Copy)]
pub enum Reminder {
    /// The other has written its vote of this position.
    HasWritten,
    /// The other desk isn't heard.
    IsMissed,
    /// The other desk is heard again.
    IsHeard,
}
