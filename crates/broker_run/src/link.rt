//! Links on their way to a job, and back from it.

ghost use Rattle.std.specs.Prelude.{◌≡◌, ◌||◌, false};
ghost use Rattle.voe_outside.specs.Traffic.{IsUnused};
ghost use Rattle.broker_run.specs.Talks.{WasTalk, has_lacked};
ghost use Rattle.vtp_session.specs.declared.side.Side.TheVariants as side;

use crate::guest::SpentGuest;
use voe_outside::Link;
use vtp_server::Ended;

/// Where a connection was accepted.
#[derive(Clone, Copy, Debug, PartialEq, Eq)]
pub enum Door {
    Authors,
    Subscribers,
}

/// A link that was handed out and that nobody used.
#[derive(Drop)]
pub struct Fresh<L: Link> {
    pub link: L,
    ghost unused: { ∥ IsUnused (L.fault_count link) (L.idle_count link) (L.end_count link) (L.traffic link) ∥₁ },
}

impl<L: Link> Fresh<L> {
    pub fn of(link: L) -> Self
        requires { IsUnused (L.fault_count link) (L.idle_count link) (L.end_count link) (L.traffic link) }
        ensures { result.link ≡ link }
    {
        Fresh { link }
    }
}

/// The link of an upstream broker's connection that has ended, with the number of its address.
#[derive(Drop)]
pub struct SpentLine<L: Link> {
    pub link: L,
    pub address: usize,
    /// There was no memory for the connection.
    pub lacked: bool,
    ghost talked: { lacked ≡ false → ∥ WasTalk side.Take L.Link link ∥₁ },
}

impl<L: Link> SpentLine<L> {
    pub fn of(link: L, address: usize, ended: Ended) -> Self
        requires { has_lacked ended ≡ false → ∥ WasTalk side.Take L.Link link ∥₁ }
        ensures { result.link ≡ link }
    {
        let lacked = lacks(ended);
        SpentLine {
            link,
            address,
            lacked,
        }
    }
}

pub(crate) fn lacks(ended: Ended) -> bool
    ensures { result ≡ has_lacked ended }
{
    match ended {
        Ended::NoMemory => true,
        Ended::Counted
        | Ended::PeerClosed
        | Ended::Garbage { .. }
        | Ended::Silent { .. }
        | Ended::Replaced { .. }
        | Ended::LinkFault
        | Ended::SinkFault
        | Ended::HubDown { .. } => false,
    }
}

pub(crate) fn either(one: bool, other: bool) -> bool
    ensures { result ≡ (one || other) }
{
    one || other
}

/// What comes back from a job.
#[derive(Drop)]
pub enum Back<La: Link, Ld: Link> {
    Guest(SpentGuest<La>),
    Line(SpentLine<Ld>),
}
