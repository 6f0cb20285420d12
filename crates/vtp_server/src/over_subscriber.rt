//! Turns at a subscriber's end.

ghost use Rattle.std.specs.Prelude.{◌≡◌};

use crate::side::Turns;
use net_model::SubscriberStep;
use std::marker::PhantomData;
use subscriber_end::{SubscriberEnd, SubscriberEvent};
use voe_disk::Disk;
use vtp_framing::Payload;

/// A subscriber.
#[derive(Drop)]
pub struct OverSubscriber<D> {
    pub end: PhantomData<D>,
}

impl<D: Disk> Turns<Payload, SubscriberStep> for OverSubscriber<D> {
    ghost use Rattle.std.specs.Prelude.{length};
    ghost use Rattle.vtp_server.specs.OneEnd.{IsSubscriberTurn};

    type Seat = SubscriberEnd<D>;

    ghost seats = { λ t end. Unit {0} };

    ghost acts = { λ t before ask reply place front after. IsSubscriberTurn D.Disk before ask reply place front after };

    ghost front_of = { λ end. length end.notes };

    ghost gives = { λ reply. Unit {0} };

    fn turn(&self, end: &mut SubscriberEnd<D>, packet: Payload) -> SubscriberStep {
        end.step(SubscriberEvent::Packet {
            packet: packet.into_bytes(),
        })
    }

    fn front(&self, end: &SubscriberEnd<D>) -> u64 {
        end.book().notes() as u64
    }
}
