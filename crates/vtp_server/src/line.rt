//! A broker on an author's line.

ghost use Rattle.std.specs.Prelude.{◌≡◌};

use crate::ask::BrokerAsk;
use crate::ended::Stop;
use crate::side::{Next, Side};
use crate::speech::Speech;
use broker_end::Way;
use net_model::BrokerStep;
use voe_values::NoMemory;
use vtp_session::Act;

/// Gives each packet its turn and writes its verdict, and shows at each beat that it is there.
#[derive(Drop)]
pub struct Line {
    pub owes_beat: bool,
}

impl Line {
    ghost use Rattle.vtp_server.specs.Fits.{Gives};
    ghost use Rattle.vtp_server.specs.LineSide.{line_goes_on};

    fn go_on(&mut self) -> Next<BrokerAsk, Stop>
        ensures { Gives (line_goes_on self.old) self.new result }
    {
        if !self.owes_beat {
            return Next::Read;
        }
        self.owes_beat = false;
        Next::Say(Speech::Alive)
    }
}

impl Side<BrokerAsk, BrokerStep, Stop> for Line {
    ghost use Rattle.vtp_server.specs.LineSide.{line_rules};

    ghost rules = { line_rules };

    ghost takes = { λ reply. Unit {0} };

    fn heard(
        &mut self,
        act: Act,
        beats: bool,
        _waiting: usize,
    ) -> Result<Next<BrokerAsk, Stop>, NoMemory> {
        self.owes_beat = beats;
        match act {
            Act::Packet(packet) => Ok(Next::Ask(BrokerAsk::Packet {
                from: Way::Line,
                packet,
            })),
            _ => Ok(self.go_on()),
        }
    }

    fn answered(
        &mut self,
        reply: BrokerStep,
        _front: u64,
        _waiting: usize,
    ) -> Result<Next<BrokerAsk, Stop>, NoMemory> {
        match reply {
            BrokerStep::Answer { verdict } => Ok(Next::Say(Speech::Answer(verdict))),
            BrokerStep::Replaced { newer } => Ok(Next::Over(Stop::Replaced { newer })),
            BrokerStep::Down { faults, .. } => Ok(Next::Over(Stop::Down { faults })),
            BrokerStep::NoMemory => Ok(Next::Over(Stop::NoMemory)),
            _ => Ok(self.go_on()),
        }
    }

    fn written(&mut self, _waiting: usize) -> Result<Next<BrokerAsk, Stop>, NoMemory> {
        Ok(self.go_on())
    }

    fn told(&mut self, _waiting: usize) -> Result<Next<BrokerAsk, Stop>, NoMemory> {
        Ok(self.go_on())
    }
}
