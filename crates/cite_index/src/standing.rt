//! What is left of a packet after others spoke of it.

ghost use Rattle.std.specs.Prelude.{◌≡◌};
ghost use Rattle.cite_index.specs.Cites.{after, superseded};

use voe_values::Cite;

/// What the citations of a packet leave of it.
#[derive(Clone, Copy, Debug, PartialEq, Eq)]
pub enum Standing {
    /// Nothing replaces it, and nothing takes it back.
    Current,
    /// Some packet stands in its place, and none takes it back.
    Superseded,
    /// Some packet takes it back.
    Retracted,
}

/// What a citation more leaves of a standing.
pub fn after(was: Standing, kind: Cite) -> Standing
    ensures { result ≡ after was kind }
{
    match kind {
        Cite::Followup => was,
        Cite::Retraction => Standing::Retracted,
        Cite::Supersedes => superseded(was),
    }
}

fn superseded(was: Standing) -> Standing
    ensures { result ≡ superseded was }
{
    match was {
        Standing::Retracted => Standing::Retracted,
        Standing::Superseded | Standing::Current => Standing::Superseded,
    }
}
