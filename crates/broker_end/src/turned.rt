//! A broker as a state that connections take turns at.

ghost use Rattle.std.specs.Prelude.{◌≡◌, ◌<◌, ◌≤◌, true, false, MatchResult, Some, None, length, nat_lt};
ghost use Rattle.broker_end.specs.Broker.{IsEvent};
ghost use Rattle.broker_end.specs.Turning.{admitted, is_whole, refused, with_last};

use crate::broker::BrokerEnd;
use crate::event::{BrokerEvent, Way};
use hub_lock::Turned;
use net_model::BrokerStep;
use voe_disk::Disk;
use voe_values::Bytes;

// A packet has 1 to so many bytes.
const MOST_BYTES: usize = 1_048_576;

fn is_whole(packet: &Bytes) -> bool
    ensures { result ≡ is_whole packet.now }
{
    1 <= packet.len() && packet.len() <= MOST_BYTES
}

fn packet_event(from: Way, packet: Bytes) -> Result<BrokerEvent, BrokerStep>
    ensures { MatchResult result
        (λ event. (is_whole packet ≡ true) × (event ≡ BrokerEvent.Packet from packet))
        (λ answer. (is_whole packet ≡ false) × (answer ≡ BrokerStep.Passed)) }
{
    if is_whole(&packet) {
        Ok(BrokerEvent::Packet { from, packet })
    } else {
        Err(BrokerStep::Passed)
    }
}

impl<D: Disk> BrokerEnd<D> {
    /// The event that a turn steps with: a session above its link's last counts as the last. An ask that no step takes
    /// is answered at once.
    fn admit(&self, ask: BrokerEvent) -> Result<BrokerEvent, BrokerStep>
        ensures { MatchResult result
            (λ event. (admitted self.now.config self.now.sessions ask ≡ Some event) × IsEvent self.now.config self.now.sessions event)
            (λ answer. (admitted self.now.config self.now.sessions ask ≡ None) × (answer ≡ refused ask)) }
    {
        match ask {
            BrokerEvent::Packet { from, packet } => packet_event(from, packet),
            BrokerEvent::Join { name } => Ok(BrokerEvent::Join { name }),
            BrokerEvent::Next {
                link,
                session,
                after,
            } => {
                if self.has_link(link) {
                    Ok(BrokerEvent::Next {
                        link,
                        session: session.min(self.last_session(link)),
                        after,
                    })
                } else {
                    Err(BrokerStep::Nothing)
                }
            }
            BrokerEvent::Acked {
                link,
                session,
                identifier,
            } => {
                if self.has_link(link) {
                    Ok(BrokerEvent::Acked {
                        link,
                        session: session.min(self.last_session(link)),
                        identifier,
                    })
                } else {
                    Err(BrokerStep::Passed)
                }
            }
            BrokerEvent::Live { after, filters } => Ok(BrokerEvent::Live { after, filters }),
        }
    }

    fn has_link(&self, link: u16) -> bool
        ensures { result ≡ nat_lt link (length self.now.config.links) }
    {
        (link as usize) < self.book().config().links.len()
    }
}

impl<D: Disk> Turned for BrokerEnd<D> {
    ghost use Rattle.std.specs.Prelude.{map};
    ghost use Rattle.node_book.specs.Ends.{IsSound};
    ghost use Rattle.node_notes.specs.Spelling.{config_payload, note_payload};
    ghost use Rattle.broker_end.specs.Turning.{MeansTurn, sign_of};

    type Ask = BrokerEvent;

    type Reply = BrokerStep;

    ghost fixed = { λ end. config_payload end.config };

    ghost records = { λ end. map note_payload end.notes };

    ghost sound = { λ end. IsSound D.Disk end };

    ghost means = { λ before ask reply after. MeansTurn D.Disk before ask reply after };

    ghost sign_of = { sign_of };

    fn turn(&mut self, ask: BrokerEvent) -> BrokerStep {
        match self.admit(ask) {
            Ok(event) => self.step(event),
            Err(answer) => answer,
        }
    }

    fn noted(&self) -> u64 {
        self.book().notes() as u64
    }

    fn sign(reply: &BrokerStep) -> u8 {
        match reply {
            BrokerStep::Down { .. } => 1,
            BrokerStep::Replaced { .. } => 2,
            _ => 0,
        }
    }
}
