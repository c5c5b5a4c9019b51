ghost use Rattle.std.specs.Prelude.{◌≡◌};
ghost use Rattle.ygg_value.specs.Shapes.{IsShape};
ghost use Rattle.ygg_disk.specs.Size.{table_shape};
ghost use Rattle.ygg_run_image.specs.Sight.{Holds};

use crate::beginning::{begin, begin_write};
use crate::rows::{flush_rows, known_row, read_row, write_row};
use std::alloc::Global;
use ygg_base::{Device, Geometry, Moved};
use ygg_disk::rows::zero_row;
use ygg_disk::{Ground, Power, Turn};
use ygg_list::NoMemory;
use ygg_value::{Row, Value, Word};

/// A disk over the attached image of a device, whose rows stand in the blocks behind the first. It can't lose power.
#[derive(Drop)]
pub struct DeviceGround<'a, D: Device> {
    alloc: Global,
    pub geometry: Geometry,
    pub device: &'a mut D,
    pub ghost holds: { ∥ Holds geometry (D.images device.now) (D.attached device.now) ∥₁ },
}

impl<'a, D: Device> DeviceGround<'a, D> {
    /// The disk that the attached image of a device holds. It makes no device call and takes no memory.
    pub fn new(alloc: Global, device: &'a mut D, geometry: Geometry) -> DeviceGround<'a, D>
        requires { Holds geometry (D.images device.old) (D.attached device.old) }
        ensures same_reference { result.device.ghost_name ≡ device.entry.ghost_name }
        ensures same { result.device.now ≡ device.old }
        ensures geometry { result.geometry ≡ geometry }
    {
        DeviceGround {
            alloc,
            geometry,
            device,
        }
    }

    /// The device alone.
    pub fn into_device(self) -> &'a mut D
        ensures same_reference { result.ghost_name ≡ self.entry.device.ghost_name }
        ensures same { result.now ≡ self.entry.device.now }
    {
        let DeviceGround { device, .. } = self;
        device
    }
}

impl<D: Device> Ground for DeviceGround<'_, D> {
    ghost use Rattle.ygg_run_image.specs.DeviceMeaning.{device_meaning};

    ghost means = { device_meaning (λ s. record {
      reference = s.device.ghost_name;
      geometry = s.geometry;
      images = D.images s.device.now;
      attached = D.attached s.device.now;
      faults = D.faults s.device.now;
    }) };

    fn read(&mut self, at: Word, power: &mut Power) -> Result<Turn, NoMemory> {
        let mut row = zero_row(self.alloc, self.geometry)?;
        let passed = power.passed;
        begin(power, self.alloc, Some(at))?;
        match read_row(self.device, self.geometry, at.bits, &mut row) {
            Moved::Done => Ok(Turn::Answer(Value::Row(row))),
            Moved::Failed => {
                power.passed = passed;
                Ok(Turn::Failed)
            }
        }
    }

    #[tactic(auto, using(crate::proofs::Held::limits_here))]
    fn write(&mut self, at: Word, row: &Row, power: &mut Power) -> Result<Turn, NoMemory> {
        let passed = power.passed;
        if let Err(error) = begin_write(power, self.alloc, at, row) {
            // So that the row is known to be one of the disk.
            known_row(self.geometry, row);
            return Err(error);
        }
        match write_row(self.device, self.geometry, at.bits, row) {
            Moved::Done => Ok(Turn::Done),
            Moved::Failed => {
                power.passed = passed;
                Ok(Turn::Failed)
            }
        }
    }

    fn flush(&mut self, power: &mut Power) -> Result<Turn, NoMemory> {
        let passed = power.passed;
        begin(power, self.alloc, None)?;
        match flush_rows(self.device, self.geometry) {
            Moved::Done => Ok(Turn::Done),
            Moved::Failed => {
                power.passed = passed;
                Ok(Turn::Failed)
            }
        }
    }

    /// Does nothing, since such a ground can't lose power.
    fn lose(&mut self)
        ensures { self.new ≡ self.old }
    {}
}
