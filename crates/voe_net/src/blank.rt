//! Which disks have no journal yet.

ghost use Rattle.std.specs.Prelude.{◌≡◌, ◌<◌, ◌^◌, Err, IfErr, IfOk, MatchBool, None, OnOk, length};
ghost use Rattle.voe_disk.specs.Disk.{HasCause};
ghost use Rattle.voe_net.specs.Looking.{AreLooked, IsLooked, NoneFailed, SeesFault};
ghost use Rattle.voe_net.specs.Starting.{AllBlank, IsBlank, NoneArmed};

use crate::fault::NetFault;
use voe_disk::{CrashDisk, Disk, DiskFail};

/// Up to how many bytes the making of a journal that was cut short can leave.
const CUT_SHORT: u64 = 17;

/// Tells whether no journal stands on the disk, or the making of one was cut short. At most one byte is read.
pub fn is_blank<D: CrashDisk>(disk: &mut D) -> Result<bool, DiskFail>
    ensures told { IfOk result (λ blank. MatchBool blank (IsBlank D.Disk disk.old) (IsBlank D.Disk disk.old → ⊥)) }
    ensures looked { IsLooked D.Disk disk.old disk.new }
    ensures cause { HasCause (D.faults disk.old) (D.faults disk.new) result }
    ensures stopped { (D.arming disk.old).calls ≡ None → result ≡ Err DiskFail.Stopped → ⊥ }
{
    let size = disk.size()?;
    if size <= 1 {
        return Ok(true);
    }
    if size > CUT_SHORT {
        return Ok(false);
    }
    let mut gate = [0u8; 1];
    disk.read_at(0, &mut gate)?;
    Ok(gate[0] != 1)
}

/// Looks at each disk, and goes on while there is no journal.
pub fn look_at<D: CrashDisk>(disks: &mut [D]) -> Result<(), NetFault>
    requires few { length disks.old < 2 ^ 8 }
    requires unarmed { NoneArmed D.Disk disks.old }
    ensures looked { AreLooked D.Disk disks.old disks.new }
    ensures blank { OnOk result (AllBlank D.Disk disks.old × NoneFailed D.Disk disks.old disks.new) }
    ensures fault { IfErr result (SeesFault D.Disk disks.old disks.new) }
{
    for node in 0..disks.len() {
        match is_blank(&mut disks[node]) {
            Ok(true) => {}
            Ok(false) => return Err(NetFault::AlreadyMade { node: node as u8 }),
            Err(_) => return Err(NetFault::Disk { node: node as u8 }),
        }
    }
    Ok(())
}
