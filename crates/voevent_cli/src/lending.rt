//! The first trial disks of a rack, lent out together and put back.

ghost use Rattle.std.specs.Prelude.{◌≡◌, ◌≢◌, ◌++◌, ◌∷◌, ◌<◌, ◌≤◌, [], ℕ, Some, None, IfOk, IsSome, OnErr, OnOk, length, slice_get};
ghost use Rattle.voe_net.specs.Starting.{NoneArmed};
ghost use Rattle.voevent_cli.specs.Lending.{AreLent};
ghost use Rattle.voevent_cli.specs.Racks.{AreSame, IsWhole, disks};

use std::alloc::Global;
use voe_disk::Rack;
use voe_net::Disks;
use voe_values::NoMemory;

/// Puts disks back in the places of the first ones, so many, the last of them first.
pub(crate) fn put_back_first<R: Rack>(rack: &mut R, mut first: Disks<R::Trial>, count: u8)
    requires count { length first ≡ count }
    requires few { count ≤ 64 }
    requires lent { (k : ℕ) → k < length first → R.trial rack.old k ≡ None }
    requires unarmed { NoneArmed R.Trial.Disk first }
    ensures back { (k : ℕ) → k < length first → R.trial rack.new k ≡ slice_get first k }
    ensures others { (k : ℕ) → length first ≤ k → R.trial rack.new k ≡ R.trial rack.old k }
    ensures real { R.real rack.new ≡ R.real rack.old }
{
    let mut left = count;
    while let Some(disk) = first.pop() {
        left -= 1;
        rack.put_back(left, disk);
    }
    first.destroy_empty();
}

/// Lends one trial disk, and puts it behind those that are lent. Without memory it is put back.
fn lend_next<R: Rack>(rack: &mut R, first: &mut Disks<R::Trial>, k: u8) -> Result<(), NoMemory>
    requires number { k < 64 }
    requires stands { IsSome (R.trial rack.old k) }
    requires unarmed { NoneArmed R.Trial.Disk first.old }
    ensures lent { OnOk result ((disk : R.Trial) × (R.trial rack.old k ≡ Some disk) × (first.new ≡ first.old ++ disk ∷ [])) }
    ensures gone { OnOk result (R.trial rack.new k ≡ None) }
    ensures same { OnErr result (first.new ≡ first.old) }
    ensures back { OnErr result (R.trial rack.new k ≡ R.trial rack.old k) }
    ensures others { (j : ℕ) → j ≢ k → R.trial rack.new j ≡ R.trial rack.old j }
    ensures real { R.real rack.new ≡ R.real rack.old }
    ensures unarmed { NoneArmed R.Trial.Disk first.new }
{
    let Some(disk) = rack.lend(k) else {
        unreachable!();
    };
    match first.push(disk) {
        Ok(()) => Ok(()),
        Err((disk, NoMemory)) => {
            rack.put_back(k, disk);
            Err(NoMemory)
        }
    }
}

/// Lends the first trial disks, so many, in their order. Without memory all are put back.
pub(crate) fn lend_first<R: Rack>(
    alloc: Global,
    rack: &mut R,
    count: u8,
) -> Result<Disks<R::Trial>, NoMemory>
    requires few { count ≤ 64 }
    requires whole { IsWhole (disks (λ k. R.trial rack.old k) (R.real rack.old)) }
    ensures lent { IfOk result (λ first. AreLent first (disks (λ k. R.trial rack.old k) (R.real rack.old)) (disks (λ k. R.trial rack.new k) (R.real rack.new))) }
    ensures count { IfOk result (λ first. length first ≡ count) }
    ensures unarmed { IfOk result (λ first. NoneArmed R.Trial.Disk first) }
    ensures back { OnErr result (AreSame (disks (λ k. R.trial rack.old k) (R.real rack.old)) (disks (λ k. R.trial rack.new k) (R.real rack.new))) }
{
    let mut first = Disks::new(alloc);
    for k in 0..count {
        match lend_next(rack, &mut first, k) {
            Ok(()) => {}
            Err(NoMemory) => {
                put_back_first(rack, first, k);
                return Err(NoMemory);
            }
        }
    }
    Ok(first)
}
