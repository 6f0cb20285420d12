//! An author that submits a line's first unanswered packet.

ghost use Rattle.std.specs.Prelude.{◌≡◌, IfOk};

use crate::ended::SubmitStop;
use crate::sending::send;
use crate::side::{Next, Side};
use net_model::AuthorStep;
use std::alloc::Global;
use std::marker::Model;
use std::mem;
use voe_values::{Ivorn, NoMemory, Text};
use vtp_session::Act;

/// What a line asks its author.
#[derive(Drop)]
pub enum AuthorAsk {
    /// The first packet at or past a place that is unanswered on the line.
    Next { after: usize },
    /// An answer came.
    Answer { identifier: Ivorn, ack: bool },
}

/// An answer that was read, and is to be recorded.
#[derive(Drop)]
pub struct Heard {
    pub identifier: Ivorn,
    pub ack: bool,
    pub why: Option<Text>,
}

/// Sends the first unanswered packet, waits for an answer and hands it in. Contracts see the answer that was read.
#[derive(Drop)]
pub struct Submitter {
    alloc: Global,
    heard: Option<Heard>,
}

impl Model for Submitter {
    ghost use Rattle.std.specs.declared.option.Option.{Option as Maybe};
    ghost use Rattle.vtp_server.specs.declared.author.Heard.{Heard as Answered};

    ghost Value = { Maybe Answered };

    ghost view = { λ s. s.heard };
}

impl Submitter {
    ghost use Rattle.std.specs.Prelude.{None};
    ghost use Rattle.vtp_server.specs.Fits.{Gives};
    ghost use Rattle.vtp_server.specs.AuthorSide.{recorded, taken_up};

    /// No answer was read. It takes no memory.
    pub fn new(alloc: Global) -> Submitter
        ensures { result ≡ None }
    {
        Submitter { alloc, heard: None }
    }

    fn take_up(
        &mut self,
        identifier: Ivorn,
        ack: bool,
        why: Option<Text>,
    ) -> Result<Next<AuthorAsk, SubmitStop>, NoMemory>
        ensures { IfOk result (λ n. Gives (taken_up identifier ack why) self.new n) }
    {
        let own = identifier.copy()?;
        self.heard = Some(Heard {
            identifier: own,
            ack,
            why,
        });
        Ok(Next::Ask(AuthorAsk::Answer { identifier, ack }))
    }

    /// The answer is recorded.
    fn finish(&mut self) -> Next<AuthorAsk, SubmitStop>
        ensures { Gives (recorded self.old) self.new result }
    {
        match mem::replace(&mut self.heard, None) {
            None => Next::Over(SubmitStop::NoMemory),
            Some(heard) => {
                let Heard {
                    identifier,
                    ack,
                    why,
                } = heard;
                if ack {
                    Next::Over(SubmitStop::Ack { identifier })
                } else {
                    Next::Over(SubmitStop::Nak { result: why })
                }
            }
        }
    }
}

impl Side<AuthorAsk, AuthorStep, SubmitStop> for Submitter {
    ghost use Rattle.vtp_server.specs.AuthorSide.{author_rules};
    ghost use Rattle.vtp_server.specs.Sendable.{IsSendableOn};

    ghost rules = { author_rules };

    ghost takes = { λ reply. IsSendableOn reply };

    fn heard(
        &mut self,
        act: Act,
        _beats: bool,
        _waiting: usize,
    ) -> Result<Next<AuthorAsk, SubmitStop>, NoMemory> {
        match act {
            Act::Answer {
                identifier,
                ack,
                result,
                ..
            } => self.take_up(identifier, ack, result),
            _ => Ok(Next::Read),
        }
    }

    fn answered(
        &mut self,
        reply: AuthorStep,
        _front: u64,
        _waiting: usize,
    ) -> Result<Next<AuthorAsk, SubmitStop>, NoMemory> {
        match reply {
            AuthorStep::Packet {
                identifier,
                packet,
                ..
            } => send(self.alloc, &identifier, packet),
            AuthorStep::Nothing => Ok(Next::Over(SubmitStop::Nothing)),
            AuthorStep::Noted => Ok(self.finish()),
            AuthorStep::Full => Ok(Next::Over(SubmitStop::Full)),
            AuthorStep::Down { faults, .. } => Ok(Next::Over(SubmitStop::Down { faults })),
            AuthorStep::NoMemory => Ok(Next::Over(SubmitStop::NoMemory)),
            AuthorStep::Wrote
            | AuthorStep::Known
            | AuthorStep::Refused { .. }
            | AuthorStep::Passed => Ok(Next::Over(SubmitStop::NoMemory)),
        }
    }

    fn written(&mut self, _waiting: usize) -> Result<Next<AuthorAsk, SubmitStop>, NoMemory> {
        Ok(Next::Read)
    }

    fn told(&mut self, _waiting: usize) -> Result<Next<AuthorAsk, SubmitStop>, NoMemory> {
        Ok(Next::Read)
    }
}
