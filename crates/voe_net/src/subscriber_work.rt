//! The work of a subscriber.

ghost use Rattle.std.specs.Prelude.{◌≡◌, Bool, None};
ghost use Rattle.voe_values.specs.declared.kind.NodeKind.TheVariants.{Subscriber};
ghost use Rattle.net_machine.specs.Ends.{IsPacket};
ghost use Rattle.net_machine.specs.Works.{IsFit};
ghost use Rattle.net_machine.specs.declared.work.Work.TheVariants.{Take};
ghost use Rattle.voe_net.specs.Nodes.{show_up};
ghost use Rattle.voe_net.specs.Told.{subscriber_told};
ghost use Rattle.voe_net.specs.Worked.{HasWorked};

use crate::working::Worked;
use net_machine::Work;
use net_model::SubscriberStep;
use subscriber_end::{SubscriberEnd, SubscriberEvent};
use voe_disk::CrashDisk;
use voe_values::Bytes;

/// A subscriber that is up takes a packet.
pub fn subscriber_works<D: CrashDisk>(end: &mut SubscriberEnd<D>, work: Work) -> Worked
    requires up { end.old.down ≡ None }
    requires kind { end.old.config.kind ≡ Subscriber }
    requires fit { IsFit (show_up end.old None) work }
    ensures { HasWorked D.Disk work end.old end.new result }
{
    match work {
        Work::Take { packet, .. } => take(end, packet),
        Work::Write { .. } | Work::Hear { .. } => unreachable!(),
    }
}

fn take<D: CrashDisk>(end: &mut SubscriberEnd<D>, packet: Bytes) -> Worked
    requires up { end.old.down ≡ None }
    requires kind { end.old.config.kind ≡ Subscriber }
    requires packet { IsPacket packet }
    ensures { (from_line : Bool) → HasWorked D.Disk (Take from_line packet) end.old end.new result }
{
    told(end.step(SubscriberEvent::Packet { packet }))
}

fn told(step: SubscriberStep) -> Worked
    ensures { result ≡ subscriber_told step }
{
    match step {
        SubscriberStep::Answer { verdict } => Worked::Answered {
            answer: Some(verdict),
        },
        SubscriberStep::Down { stopped, .. } => Worked::Fallen { stopped },
        SubscriberStep::NoMemory => Worked::NoMemory,
    }
}
