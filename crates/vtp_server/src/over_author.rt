//! Turns at an author's end, on one of its lines.

ghost use Rattle.std.specs.Prelude.{◌≡◌};

use crate::author::AuthorAsk;
use crate::side::Turns;
use author_end::{AuthorEnd, AuthorEvent};
use net_model::AuthorStep;
use std::marker::PhantomData;
use voe_disk::Disk;

/// The line of an author.
#[derive(Drop)]
pub struct OverAuthor<D> {
    pub line: u16,
    pub end: PhantomData<D>,
}

impl<D: Disk> Turns<AuthorAsk, AuthorStep> for OverAuthor<D> {
    ghost use Rattle.std.specs.Prelude.{◌<◌, length};
    ghost use Rattle.vtp_server.specs.OneEnd.{IsAuthorTurn};
    ghost use Rattle.vtp_server.specs.Sendable.{IsSendableOn};

    type Seat = AuthorEnd<D>;

    ghost seats = { λ t end. t.line < length end.config.links };

    ghost acts = { λ t before ask reply place front after. IsAuthorTurn D.Disk t.line before ask reply place front after };

    ghost front_of = { λ end. length end.notes };

    ghost gives = { λ reply. IsSendableOn reply };

    fn turn(&self, end: &mut AuthorEnd<D>, ask: AuthorAsk) -> AuthorStep {
        match ask {
            AuthorAsk::Next { after } => end.step(AuthorEvent::Next {
                line: self.line,
                after,
            }),
            AuthorAsk::Answer { identifier, ack } => end.step(AuthorEvent::Answer {
                line: self.line,
                identifier,
                ack,
            }),
        }
    }

    fn front(&self, end: &AuthorEnd<D>) -> u64 {
        end.book().notes() as u64
    }
}
