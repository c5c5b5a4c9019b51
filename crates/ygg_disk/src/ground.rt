use crate::power::Power;
use crate::turn::Turn;
use ygg_list::NoMemory;
use ygg_value::{Row, Word};

/// What a disk call is made on. `Down` is answered exactly where the fuse of `power` names the call, and power is then lost: before
/// the call or within it. `Failed` is answered only where the count of faults has risen. After running out of memory `power` is as before,
/// and the state is what `means` says.
pub trait Ground {
    ghost use Rattle.std.specs.Prelude.{◌≡◌, ◌≤◌, IsTrue, IsSome, length};
    ghost use Rattle.ygg_value.specs.declared.shape.Shape.TheVariants as shape;
    ghost use Rattle.ygg_disk.specs.Disk.{Read, Write, Flush};
    ghost use Rattle.ygg_disk.specs.Ground.{Meaning, Turns, Lost, IsDownWhereNamed, AnswersRow, AnswersNothing};

    /// What its states and its steps mean.
    ghost means: { Meaning Self };

    /// Reads the row at a place, counted from 0; zeros past the end.
    fn read(&mut self, at: Word, power: &mut Power) -> Result<Turn, NoMemory>
        requires width { at.width ≡ 8 }
        requires fuse { IsSome power.old.fuse → IsTrue means.can_lose }
        ensures turn { Turns means (Read at.bits) self.old self.new power.old power.new result }
        ensures down { IsDownWhereNamed power.old result }
        ensures answer { AnswersRow (means.row self.old) result }
        ensures row { means.row self.new ≡ means.row self.old }
        ensures later { means.faults self.old ≤ means.faults self.new };

    /// Writes the row at a place, counted from 0; past the end it changes no row.
    fn write(&mut self, at: Word, row: &Row, power: &mut Power) -> Result<Turn, NoMemory>
        requires width { at.width ≡ 8 }
        requires row { shape.Row (length row.now.words) row.now.width ≡ means.row self.old }
        requires fuse { IsSome power.old.fuse → IsTrue means.can_lose }
        ensures turn { Turns means (Write at.bits row.now) self.old self.new power.old power.new result }
        ensures down { IsDownWhereNamed power.old result }
        ensures answer { AnswersNothing result }
        ensures row { means.row self.new ≡ means.row self.old }
        ensures later { means.faults self.old ≤ means.faults self.new };

    /// Makes all writes stable.
    fn flush(&mut self, power: &mut Power) -> Result<Turn, NoMemory>
        requires fuse { IsSome power.old.fuse → IsTrue means.can_lose }
        ensures turn { Turns means Flush self.old self.new power.old power.new result }
        ensures down { IsDownWhereNamed power.old result }
        ensures answer { AnswersNothing result }
        ensures row { means.row self.new ≡ means.row self.old }
        ensures later { means.faults self.old ≤ means.faults self.new };

    /// Power fails between calls. It takes no memory.
    fn lose(&mut self)
        requires { IsTrue means.can_lose }
        ensures lost { Lost means self.old self.new }
        ensures row { means.row self.new ≡ means.row self.old }
        ensures later { means.faults self.old ≤ means.faults self.new };
}
