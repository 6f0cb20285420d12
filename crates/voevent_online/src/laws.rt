//! What callers may use of any disk.

ghost use Rattle.voe_disk.specs.Runs.{Moments};

use voe_disk::Disk;

/// How the moments of a disk follow one another.
pub(crate) fn moments_of<D: Disk>(_disk: &D)
    ensures { Moments D.Disk }
{}
