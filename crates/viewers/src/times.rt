//! How often viewers get a beat, and how long they are waited for.

/// How long it takes until viewers are told again that the station is there, in milliseconds. A page that hears nothing for
/// seven seconds, and so has missed three beats, says so.
pub const VIEWER_BEAT: u64 = 2_000;

/// How long a request and its answer may take, and a viewer may take nothing, in milliseconds. A slow telephone has the page by
/// then, and a viewer that takes nothing frees its place.
pub const VIEWER_PATIENCE: u64 = 10_000;
