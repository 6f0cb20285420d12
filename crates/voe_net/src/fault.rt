//! Why a network could not be made or stepped.

use net_machine::StepFault;
use voe_values::NoMemory;

/// Why a network could not be made or stepped.
#[derive(Clone, Copy, Debug, PartialEq, Eq)]
pub enum NetFault {
    /// The disk of this node has a journal already, or holds something else.
    AlreadyMade { node: u8 },
    /// The disk of this node failed.
    Disk { node: u8 },
    /// There was no memory.
    NoMemory,
}

impl From<NoMemory> for NetFault {
    ghost use Rattle.std.specs.Prelude.{◌≡◌};
    ghost use Rattle.voe_net.specs.declared.fault.NetFault.{NetFault};

    ghost from_gives = { λ _ fault. fault ≡ NetFault.NoMemory };

    fn from(_: NoMemory) -> Self {
        NetFault::NoMemory
    }
}

impl From<StepFault> for NetFault {
    ghost use Rattle.std.specs.Prelude.{◌≡◌};
    ghost use Rattle.voe_net.specs.Faults.{net_fault_of};

    ghost from_gives = { λ step fault. fault ≡ net_fault_of step };

    fn from(fault: StepFault) -> Self {
        match fault {
            StepFault::Disk { node } => NetFault::Disk { node },
            StepFault::NoMemory => NetFault::NoMemory,
        }
    }
}
