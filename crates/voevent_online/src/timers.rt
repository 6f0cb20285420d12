//! When a connection beats, and when it gives up.

use vtp_session::Timers;

/// A side that beats does so after a minute, and a peer that says nothing for three is silent.
pub const TIMERS: Timers = Timers {
    beat: 60_000,
    silence: 180_000,
};
