//! The work of an author.

ghost use Rattle.std.specs.Prelude.{◌≡◌, ◌<◌, ℕ, None, length};
ghost use Rattle.voe_values.specs.declared.kind.NodeKind.TheVariants.{Author};
ghost use Rattle.node_book.specs.Ends.{IsSound};
ghost use Rattle.net_machine.specs.Ends.{IsPacket};
ghost use Rattle.net_machine.specs.Works.{IsFit};
ghost use Rattle.net_machine.specs.declared.work.Work.TheVariants.{Write, Hear};
ghost use Rattle.voe_net.specs.Nodes.{show_up};
ghost use Rattle.voe_net.specs.Told.{author_told};
ghost use Rattle.voe_net.specs.Worked.{HasWorked};

use crate::heard::hear_answer;
use crate::working::Worked;
use author_end::{AuthorEnd, AuthorEvent};
use net_machine::Work;
use net_model::{AuthorStep, Verdict};
use std::alloc::Global;
use voe_disk::CrashDisk;
use voe_values::Bytes;

/// An author that is up writes a packet or hears an answer.
pub fn author_works<D: CrashDisk>(alloc: Global, end: &mut AuthorEnd<D>, work: Work) -> Worked
    requires up { end.old.down ≡ None }
    requires kind { end.old.config.kind ≡ Author }
    requires sound { IsSound D.Disk end.old }
    requires fit { IsFit (show_up end.old None) work }
    ensures { HasWorked D.Disk work end.old end.new result }
{
    match work {
        Work::Write { packet } => write(end, packet),
        Work::Take { .. } => unreachable!(),
        Work::Hear { number, answer, .. } => hear(alloc, end, number, answer),
    }
}

fn write<D: CrashDisk>(end: &mut AuthorEnd<D>, packet: Bytes) -> Worked
    requires up { end.old.down ≡ None }
    requires kind { end.old.config.kind ≡ Author }
    requires packet { IsPacket packet }
    ensures { HasWorked D.Disk (Write packet) end.old end.new result }
{
    told(end.step(AuthorEvent::Write { packet }))
}

fn hear<D: CrashDisk>(alloc: Global, end: &mut AuthorEnd<D>, line: u16, answer: Verdict) -> Worked
    requires up { end.old.down ≡ None }
    requires kind { end.old.config.kind ≡ Author }
    requires sound { IsSound D.Disk end.old }
    requires line { line < length end.old.config.links }
    ensures { (session : ℕ) → HasWorked D.Disk (Hear line session answer) end.old end.new result }
{
    match hear_answer(alloc, &answer) {
        Err(_) => Worked::NoMemory,
        Ok(None) => Worked::Answered { answer: None },
        Ok(Some(heard)) => told(end.step(AuthorEvent::Answer {
            line,
            identifier: heard.identifier,
            ack: heard.ack,
        })),
    }
}

fn told(step: AuthorStep) -> Worked
    ensures { result ≡ author_told step }
{
    match step {
        AuthorStep::Down { stopped, .. } => Worked::Fallen { stopped },
        AuthorStep::NoMemory => Worked::NoMemory,
        _ => Worked::Answered { answer: None },
    }
}
