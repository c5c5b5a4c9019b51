//! Calls that begin where no power failure is named.

ghost use Rattle.std.specs.Prelude.{◌≡◌, [], true, false, IsSome, OnOk, OnErr};
ghost use Rattle.ygg_disk.specs.Disk.{Write};
ghost use Rattle.ygg_disk.specs.Power.{Begun};
ghost use Rattle.ygg_disk.specs.Fate.{call_at, IsAddress};

use std::alloc::Global;
use ygg_disk::Power;
use ygg_list::NoMemory;
use ygg_value::{Row, Word};

/// A read at a place begins, or a flush, which has none. After running out of memory nothing has changed.
pub(crate) fn begin(power: &mut Power, alloc: Global, at: Option<Word>) -> Result<(), NoMemory>
    requires fuse { IsSome power.old.fuse → ⊥ }
    requires address { IsAddress at }
    ensures ok { OnOk result (Begun true false (call_at at) [] power.old power.new) }
    ensures err { OnErr result (power.new ≡ power.old) }
{
    // Its fate is to be whole, since no power failure is named.
    power.begin(alloc, at)?;
    Ok(())
}

/// A write begins. After running out of memory nothing has changed.
pub(crate) fn begin_write(
    power: &mut Power,
    alloc: Global,
    at: Word,
    row: &Row,
) -> Result<(), NoMemory>
    requires fuse { IsSome power.old.fuse → ⊥ }
    requires width { at.width ≡ 8 }
    ensures ok { OnOk result (Begun true false (Write at.bits row.now) [] power.old power.new) }
    ensures err { OnErr result (power.new ≡ power.old) }
{
    // Its fate is to be whole, as above.
    power.begin_write(alloc, at, row, &[], &[])?;
    Ok(())
}
