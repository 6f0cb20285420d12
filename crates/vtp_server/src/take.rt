//! A broker that follows another one.

ghost use Rattle.std.specs.Prelude.{◌≡◌};

use crate::ask::BrokerAsk;
use crate::ended::Stop;
use crate::side::{Next, Side};
use crate::speech::Speech;
use broker_end::Way;
use net_model::BrokerStep;
use voe_values::NoMemory;
use vtp_session::Act;

/// Gives each packet its turn and writes its verdict, and answers who it is and that it is there.
#[derive(Drop)]
pub struct Follower;

impl Side<BrokerAsk, BrokerStep, Stop> for Follower {
    ghost use Rattle.vtp_server.specs.TakeSide.{take_rules};

    ghost rules = { take_rules };

    ghost takes = { λ reply. Unit {0} };

    fn heard(
        &mut self,
        act: Act,
        _beats: bool,
        _waiting: usize,
    ) -> Result<Next<BrokerAsk, Stop>, NoMemory> {
        match act {
            Act::Packet(packet) => Ok(Next::Ask(BrokerAsk::Packet {
                from: Way::Link,
                packet,
            })),
            Act::Beat { asker } => Ok(Next::Say(Speech::AliveTo { asker })),
            Act::Challenge { asker } => Ok(Next::Say(Speech::IAm { asker })),
            _ => Ok(Next::Read),
        }
    }

    fn answered(
        &mut self,
        reply: BrokerStep,
        _front: u64,
        _waiting: usize,
    ) -> Result<Next<BrokerAsk, Stop>, NoMemory> {
        match reply {
            BrokerStep::Answer { verdict } => Ok(Next::Say(Speech::Answer(verdict))),
            BrokerStep::Replaced { newer } => Ok(Next::Over(Stop::Replaced { newer })),
            BrokerStep::Down { faults, .. } => Ok(Next::Over(Stop::Down { faults })),
            BrokerStep::NoMemory => Ok(Next::Over(Stop::NoMemory)),
            _ => Ok(Next::Read),
        }
    }

    fn written(&mut self, _waiting: usize) -> Result<Next<BrokerAsk, Stop>, NoMemory> {
        Ok(Next::Read)
    }

    fn told(&mut self, _waiting: usize) -> Result<Next<BrokerAsk, Stop>, NoMemory> {
        Ok(Next::Read)
    }
}
