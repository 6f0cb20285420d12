//! The work of a broker.

ghost use Rattle.std.specs.Prelude.{◌≡◌, Bool, None};
ghost use Rattle.voe_values.specs.declared.kind.NodeKind.TheVariants.{Broker};
ghost use Rattle.broker_end.specs.Broker.{is_line};
ghost use Rattle.node_book.specs.Ends.{IsSound};
ghost use Rattle.net_machine.specs.Ends.{IsPacket};
ghost use Rattle.net_machine.specs.Works.{IsFit, IsOver};
ghost use Rattle.net_machine.specs.declared.work.Work.TheVariants.{Take, Hear};
ghost use Rattle.voe_net.specs.Nodes.{show_up};
ghost use Rattle.voe_net.specs.Told.{broker_told};
ghost use Rattle.voe_net.specs.Worked.{HasWorked};

use crate::heard::hear_answer;
use crate::working::Worked;
use broker_end::{BrokerEnd, BrokerEvent, Way};
use net_machine::Work;
use net_model::{BrokerStep, Verdict};
use std::alloc::Global;
use voe_disk::CrashDisk;
use voe_values::Bytes;

/// A broker that is up takes a packet or hears an answer.
pub fn broker_works<D: CrashDisk>(alloc: Global, end: &mut BrokerEnd<D>, work: Work) -> Worked
    requires up { end.old.down ≡ None }
    requires kind { end.old.config.kind ≡ Broker }
    requires sound { IsSound D.Disk end.old }
    requires fit { IsFit (show_up end.old None) work }
    ensures { HasWorked D.Disk work end.old end.new result }
{
    match work {
        Work::Write { .. } => unreachable!(),
        Work::Take { from_line, packet } => take(end, way(from_line), packet),
        Work::Hear {
            number,
            session,
            answer,
        } => hear(alloc, end, number, session, answer),
    }
}

fn way(from_line: bool) -> Way
    ensures { is_line result ≡ from_line }
{
    if from_line { Way::Line } else { Way::Link }
}

fn take<D: CrashDisk>(end: &mut BrokerEnd<D>, from: Way, packet: Bytes) -> Worked
    requires up { end.old.down ≡ None }
    requires kind { end.old.config.kind ≡ Broker }
    requires packet { IsPacket packet }
    ensures { HasWorked D.Disk (Take (is_line from) packet) end.old end.new result }
{
    told(end.step(BrokerEvent::Packet { from, packet }))
}

fn hear<D: CrashDisk>(
    alloc: Global,
    end: &mut BrokerEnd<D>,
    link: u16,
    session: u64,
    answer: Verdict,
) -> Worked
    requires up { end.old.down ≡ None }
    requires kind { end.old.config.kind ≡ Broker }
    requires sound { IsSound D.Disk end.old }
    requires over { IsOver (show_up end.old None) link session }
    ensures { HasWorked D.Disk (Hear link session answer) end.old end.new result }
{
    match hear_answer(alloc, &answer) {
        Err(_) => Worked::NoMemory,
        Ok(None) => Worked::Answered { answer: None },
        Ok(Some(heard)) => {
            if !heard.ack {
                return Worked::Answered { answer: None };
            }
            told(end.step(BrokerEvent::Acked {
                link,
                session,
                identifier: heard.identifier,
            }))
        }
    }
}

fn told(step: BrokerStep) -> Worked
    ensures { result ≡ broker_told step }
{
    match step {
        BrokerStep::Answer { verdict } => Worked::Answered {
            answer: Some(verdict),
        },
        BrokerStep::Down { stopped, .. } => Worked::Fallen { stopped },
        BrokerStep::NoMemory => Worked::NoMemory,
        _ => Worked::Answered { answer: None },
    }
}
