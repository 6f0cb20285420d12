//! What a command takes from the world and gives back, each as one change of its parts.

ghost use Rattle.std.specs.Prelude.{◌≡◌, None, Some, IsSome, nat_lt};
ghost use Rattle.voe_outside.specs.Causes.{count_after};
ghost use Rattle.voe_outside.specs.Dialed.{IfDialed, is_failed};
ghost use Rattle.voe_outside.specs.Returns.{TakesBack};
ghost use Rattle.voe_outside.specs.Traffic.{IsUnused};
ghost use Rattle.voe_outside.specs.Whole.{Writes, has_write_failed};

use voe_outside::{Dialed, Dialer, WriteFault, write_all};
use voe_world::World;

/// Takes the disk, which is there.
pub(crate) fn take_disk<W: World>(world: &mut W) -> W::D
    requires { IsSome (W.parts world.old).disk }
    ensures taken { (W.parts world.old).disk ≡ Some result }
    ensures unarmed { (W.D.arming result).calls ≡ None }
    ensures parts { W.parts world.new ≡ record (W.parts world.old) { disk = None } }
{
    let Some(disk) = world.take_disk() else {
        unreachable!()
    };
    disk
}

/// Puts the disk back.
pub(crate) fn put_back<W: World>(world: &mut W, disk: W::D)
    requires taken { (W.parts world.old).disk ≡ None }
    requires unarmed { (W.D.arming disk).calls ≡ None }
    ensures parts { W.parts world.new ≡ record (W.parts world.old) { disk = Some disk } }
{
    world.put_disk(disk);
}

/// Dials the peer at this address.
pub(crate) fn dial<W: World>(world: &mut W, address: &str) -> Dialed<<W::Di as Dialer>::L>
    ensures unused { IfDialed result (λ l. IsUnused (W.Di.L.fault_count l) (W.Di.L.idle_count l) (W.Di.L.end_count l) (W.Di.L.traffic l)) }
    ensures parts { W.parts world.new ≡ record (W.parts world.old) { dialer = (W.parts world.new).dialer } }
    ensures returns { W.Di.returns (W.parts world.new).dialer ≡ W.Di.returns (W.parts world.old).dialer }
    ensures faults { W.Di.fault_count (W.parts world.new).dialer ≡ count_after (W.Di.fault_count (W.parts world.old).dialer) (is_failed result) }
{
    world.dialer().dial(address)
}

/// Gives a link back that was dialed.
pub(crate) fn hang_up<W: World>(world: &mut W, link: <W::Di as Dialer>::L)
    ensures parts { W.parts world.new ≡ record (W.parts world.old) { dialer = (W.parts world.new).dialer } }
    ensures returns { TakesBack (W.Di.returns (W.parts world.old).dialer) (W.Di.returns (W.parts world.new).dialer) link }
    ensures faults { W.Di.fault_count (W.parts world.new).dialer ≡ count_after (W.Di.fault_count (W.parts world.old).dialer) (nat_lt 0 (W.Di.L.fault_count link)) }
{
    world.dialer().hang_up(link);
}

/// Writes the bytes to the sink.
pub(crate) fn write<W: World>(world: &mut W, bytes: &[u8]) -> Result<(), WriteFault>
    ensures parts { W.parts world.new ≡ record (W.parts world.old) { sink = (W.parts world.new).sink } }
    ensures bytes { Writes (W.Si.held (W.parts world.old).sink) (W.Si.held (W.parts world.new).sink) bytes.now result }
    ensures faults { W.Si.fault_count (W.parts world.new).sink ≡ count_after (W.Si.fault_count (W.parts world.old).sink) (has_write_failed result) }
{
    write_all(world.sink(), bytes)
}
