//! How the disks of a network are taken back.

ghost use Rattle.std.specs.Prelude.{◌≡◌, ◌+◌, ◌≤◌, ◌++◌, List, length, reverse, vec_capacity};
ghost use Rattle.voe_net.specs.TakenBack.{AreTakenBack};

use crate::node_end::NodeEnd;
use net_machine::Seat;
use voe_disk::CrashDisk;
use voe_values::Listing;

/// Takes the disks out of the nodes and puts them before the others, which lie in reverse order, within the room that is
/// there.
pub fn give_back<D: CrashDisk>(seats: Listing<Seat<NodeEnd<D>>>, disks: &mut Vec<D>)
    requires { length seats + length disks.old.items ≤ vec_capacity disks.old }
    ensures { (first : List D) × AreTakenBack D.Disk seats first × (disks.new.items ≡ first ++ reverse disks.old.items) }
{
    let mut left = seats.into_vec();
    while let Some(seat) = left.pop() {
        let Seat { up: _, end } = seat;
        disks.push_reserved(end.into_disk());
    }
    left.destroy_empty();
    disks.reverse();
}
