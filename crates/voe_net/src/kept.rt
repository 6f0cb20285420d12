//! What a node is made of.

use author_end::AuthorEnd;
use broker_end::BrokerEnd;
use subscriber_end::SubscriberEnd;
use voe_disk::CrashDisk;

/// The end of a node, by its kind, or the disk alone of an end that could not be loaded again.
#[derive(Drop)]
pub enum Kept<D: CrashDisk> {
    Author { end: AuthorEnd<D> },
    Broker { end: BrokerEnd<D> },
    Subscriber { end: SubscriberEnd<D> },
    Bare { disk: D },
}
