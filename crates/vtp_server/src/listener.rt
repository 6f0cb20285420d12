//! A subscriber that follows a broker until it has entered enough packets.

ghost use Rattle.std.specs.Prelude.{◌≡◌, IfOk};
ghost use Rattle.vtp_server.specs.ListenSide.{line_of};

use crate::ended::ListenStop;
use crate::side::{Next, Side};
use crate::speech::Speech;
use net_model::{SubscriberStep, Verdict};
use std::alloc::Global;
use std::marker::Model;
use std::mem;
use voe_values::{Bytes, NoMemory};
use vtp_framing::Payload;
use vtp_session::Act;

/// Gives each packet its turn and writes its verdict, answers who it is and that it is there, and tells a line for each packet
/// that was entered, until so many were. Contracts see how many are still wanted, how many records there were, and the line
/// that is to be told.
#[derive(Drop)]
pub struct Listening {
    alloc: Global,
    wanted: u64,
    front: u64,
    line: Option<Bytes>,
}

impl Model for Listening {
    ghost use Rattle.vtp_server.specs.ListenMemory.{ListenMemory};

    ghost Value = { ListenMemory };

    ghost view = { λ l. record { wanted = l.wanted; front = l.front; line = l.line } };
}

/// The line of a packet that was entered.
fn line_of(alloc: Global, identifier: &Bytes) -> Result<Bytes, NoMemory>
    ensures { IfOk result (λ line. line ≡ line_of identifier.now) }
{
    let mut line = Bytes::of(alloc, b"entered ")?;
    line.extend(identifier.as_slice())?;
    line.extend(b"\n")?;
    Ok(line)
}

impl Listening {
    ghost use Rattle.vtp_server.specs.Fits.{Gives};
    ghost use Rattle.vtp_server.specs.ListenMemory.{first_listening};
    ghost use Rattle.vtp_server.specs.ListenSide.{after_told, after_verdict, next_line, with_line};

    /// So many packets are wanted, and there are so many records. It takes no memory.
    pub fn new(alloc: Global, wanted: u64, front: u64) -> Listening
        ensures { result ≡ first_listening wanted front }
    {
        Listening {
            alloc,
            wanted,
            front,
            line: None,
        }
    }

    /// A verdict was given: where there is one record more, a packet was entered.
    fn take_verdict(
        &mut self,
        verdict: Verdict,
        front: u64,
    ) -> Result<Next<Payload, ListenStop>, NoMemory>
        ensures { IfOk result (λ n. Gives (after_verdict self.old verdict front) self.new n) }
    {
        self.line = self.line_for(&verdict, front)?;
        self.front = front;
        Ok(Next::Say(Speech::Answer(verdict)))
    }

    fn line_for(&self, verdict: &Verdict, front: u64) -> Result<Option<Bytes>, NoMemory>
        ensures { IfOk result (λ line. line ≡ with_line self.now.front verdict.now front) }
    {
        match verdict {
            Verdict::Ack { identifier } => {
                if self.front < front {
                    let line = line_of(self.alloc, identifier)?;
                    Ok(Some(line))
                } else {
                    Ok(None)
                }
            }
            Verdict::Nak { .. } => Ok(None),
        }
    }

    fn tell_or_read(&mut self) -> Next<Payload, ListenStop>
        ensures { Gives (next_line self.old) self.new result }
    {
        match mem::replace(&mut self.line, None) {
            Some(line) => Next::Tell(line),
            None => Next::Read,
        }
    }

    fn count(&mut self) -> Next<Payload, ListenStop>
        ensures { Gives (after_told self.old) self.new result }
    {
        self.wanted = self.wanted.saturating_sub(1);
        if self.wanted == 0 {
            Next::Over(ListenStop::Counted)
        } else {
            Next::Read
        }
    }
}

impl Side<Payload, SubscriberStep, ListenStop> for Listening {
    ghost use Rattle.vtp_server.specs.ListenSide.{listen_rules};

    ghost rules = { listen_rules };

    ghost takes = { λ reply. Unit {0} };

    fn heard(
        &mut self,
        act: Act,
        _beats: bool,
        _waiting: usize,
    ) -> Result<Next<Payload, ListenStop>, NoMemory> {
        match act {
            Act::Packet(packet) => Ok(Next::Ask(packet)),
            Act::Beat { asker } => Ok(Next::Say(Speech::AliveTo { asker })),
            Act::Challenge { asker } => Ok(Next::Say(Speech::IAm { asker })),
            _ => Ok(Next::Read),
        }
    }

    fn answered(
        &mut self,
        reply: SubscriberStep,
        front: u64,
        _waiting: usize,
    ) -> Result<Next<Payload, ListenStop>, NoMemory> {
        match reply {
            SubscriberStep::Answer { verdict } => self.take_verdict(verdict, front),
            SubscriberStep::Down { faults, .. } => Ok(Next::Over(ListenStop::Down { faults })),
            SubscriberStep::NoMemory => Ok(Next::Over(ListenStop::NoMemory)),
        }
    }

    fn written(&mut self, _waiting: usize) -> Result<Next<Payload, ListenStop>, NoMemory> {
        Ok(self.tell_or_read())
    }

    fn told(&mut self, _waiting: usize) -> Result<Next<Payload, ListenStop>, NoMemory> {
        Ok(self.count())
    }
}
