//! Links of accepted connections that have ended.

ghost use Rattle.std.specs.Prelude.{◌≡◌, false};
ghost use Rattle.broker_run.specs.Talks.{WasTalk, has_lacked};
ghost use Rattle.broker_run.specs.Doors.{side_of};

use crate::link::{Door, lacks};
use voe_outside::Link;
use vtp_server::Ended;

/// The link of an accepted connection that has ended.
#[derive(Drop)]
pub struct SpentGuest<L: Link> {
    pub link: L,
    pub door: Door,
    /// There was no memory for the connection.
    pub lacked: bool,
    ghost talked: { lacked ≡ false → ∥ WasTalk (side_of door) L.Link link ∥₁ },
}

impl<L: Link> SpentGuest<L> {
    pub fn of(link: L, door: Door, ended: Ended) -> Self
        requires { has_lacked ended ≡ false → ∥ WasTalk (side_of door) L.Link link ∥₁ }
        ensures { result.link ≡ link }
    {
        let lacked = lacks(ended);
        SpentGuest { link, door, lacked }
    }
}
