//! The list of remarks on a packet.

ghost use Rattle.std.specs.Prelude.{◌≡◌, IfOk, IsTrue};
ghost use Rattle.std.specs.List.{flat_map};
ghost use Rattle.voe_tree.specs.Validity.{is_valid};
ghost use Rattle.voe_validity.specs.RemarkList.{number_if_held, remarks_of};

use crate::remark::Remark;
use std::alloc::Global;
use voe_tree::{Element, Tree};
use voe_values::{Listing, NoMemory};

/// The numbers of the remarks on a packet, N01 to N10 as 1 to 10.
pub type Remarks = Listing<u8>;

macro_rules! remarks_named {
    ($($remark:ident),+ $(,)?) => { [$(Remark::$remark),+] };
}

/// What is odd about a valid packet: the numbers of the remarks that hold, rising. A remark holds where some place of
/// the packet meets it: `Who` without `AuthorIVORN` (N01); a text of `Date` or `ISOTime` that is no time (N02, N03); a
/// coordinate or radius that is no decimal (N04 to N06); an importance or probability that is no decimal from 0 to 1
/// (N07, N08); a parameter without a name (N09); an expiry that is no time (N10).
pub fn remarks(alloc: Global, tree: &Tree) -> Result<Remarks, NoMemory>
    requires { IsTrue (is_valid tree.now.root) }
    ensures { IfOk result (λ remarks. remarks ≡ remarks_of tree.now.root) }
{
    let root = tree.root();
    let all = remarks_named![
        Author,
        Date,
        IsoTime,
        First,
        Second,
        Radius,
        Importance,
        Probability,
        Param,
        Expires,
    ];
    numbers_held(alloc, root, &all)
}

/// The numbers of those remarks that hold, in the order of the remarks.
fn numbers_held(alloc: Global, root: &Element, remarks: &[Remark]) -> Result<Remarks, NoMemory>
    ensures { IfOk result (λ numbers. numbers ≡ flat_map (number_if_held root.now) remarks.now) }
{
    let mut numbers = Listing::new(alloc);
    for remark in remarks {
        remark.note(alloc, root, &mut numbers)?;
    }
    Ok(numbers)
}
