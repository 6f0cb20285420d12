//! Turns at a hub.

ghost use Rattle.std.specs.Prelude.{◌≡◌};

use crate::ask::BrokerAsk;
use crate::side::Turns;
use broker_end::BrokerEvent;
use hub_lock::{Hub, Seat, Turned};
use net_model::BrokerStep;
use std::sync::Wait;

/// A hub of a broker, and what waits there.
#[derive(Drop)]
pub struct OverHub<'a, S: Turned, W: Wait> {
    pub rt: &'a W,
    pub hub: &'a Hub<S>,
}

impl<'a, S: Turned<Ask = BrokerEvent, Reply = BrokerStep>, W: Wait> Turns<BrokerAsk, BrokerStep>
    for OverHub<'a, S, W> {
    ghost use Rattle.std.specs.Prelude.{◌≡◌, length};
    ghost use Rattle.vtp_server.specs.HubTurns.{CanGive, IsHubTurn};

    type Seat = Seat;

    ghost seats = { λ h seat. seat.hub ≡ h.hub.now };

    ghost acts = { λ h before ask reply place front after. IsHubTurn S.fixed S.records S.sound S.means S.sign_of before ask reply place front after };

    ghost front_of = { λ seat. length seat.front };

    ghost gives = { λ reply. CanGive S.means reply };

    fn turn(&self, seat: &mut Seat, ask: BrokerAsk) -> BrokerStep {
        self.hub.turn(self.rt, seat, ask.into_event())
    }

    fn front(&self, seat: &Seat) -> u64 {
        seat.front()
    }
}
