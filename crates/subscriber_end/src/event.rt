//! What happens to a subscriber.

ghost use Rattle.std.specs.Prelude.{◌≡◌};

use voe_values::Bytes;

/// What happens to a subscriber.
#[derive(Drop)]
pub enum SubscriberEvent {
    /// A packet comes over a link, of 1 to 1,048,576 bytes.
    Packet { packet: Bytes },
}

impl SubscriberEvent {
    /// The packet that comes.
    pub(crate) fn into_packet(self) -> Bytes
        ensures { self ≡ SubscriberEvent.Packet result }
    {
        match self {
            SubscriberEvent::Packet { packet } => packet,
        }
    }
}
