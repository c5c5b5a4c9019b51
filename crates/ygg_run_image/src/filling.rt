//! An image is created, and all layers of a file are formatted on it.

ghost use Rattle.std.specs.Prelude.{◌≡◌, ◌≤◌, IfSome};
ghost use Rattle.ygg_base.specs.Outside.{Rose};
ghost use Rattle.ygg_run_image.specs.ygg_base.Devices.{AttachedTurns, OthersStay, Tells};
ghost use Rattle.ygg_run_image.specs.ygg_type.Typed.{geometry_of};
ghost use Rattle.ygg_run_image.specs.Image.{rows_in};
ghost use Rattle.ygg_run_image.specs.Sight.{Holds, held};
ghost use Rattle.ygg_run_image.specs.Standing.{KeepsHeader};
ghost use Rattle.ygg_run_image.specs.Formatted.{AreFormatted};
ghost use Rattle.ygg_run_image.specs.Leaving.{Fills, IsBlank};
ghost use Rattle.ygg_run_image.specs.declared.end.FormatEnd.TheVariants.{Done, Failed};

use crate::device_ground::DeviceGround;
use crate::end::FormatEnd;
use crate::formatting::Formatting;
use crate::levels::on_stack;
use crate::size::block_size;
use std::alloc::Global;
use ygg_base::{Device, Made, Text};
use ygg_machine::Typed;

/// Formats all layers of a file, the lowest first, on a ground over a device whose image is all zeros.
fn format_ground<'a, D: Device>(
    alloc: Global,
    typed: &Typed,
    ground: DeviceGround<'a, D>,
    formatting: &mut Formatting,
) -> DeviceGround<'a, D>
    requires geometry { ground.geometry ≡ geometry_of typed.now.file.disk }
    requires holds { Holds (geometry_of typed.now.file.disk) (D.images ground.device.now) (D.attached ground.device.now) }
    requires blank { IfSome (held (D.images ground.device.now) (D.attached ground.device.now)) (IsBlank (geometry_of typed.now.file.disk)) }
    ensures same_reference { result.device.ghost_name ≡ ground.entry.device.ghost_name }
    ensures still { D.attached result.device.now ≡ D.attached ground.entry.device.now }
    ensures told { Tells (AttachedTurns (KeepsHeader (geometry_of typed.now.file.disk)) (D.attached ground.entry.device.now))
        (D.images ground.entry.device.now) (D.images result.device.now) }
    ensures rows { formatting.new.end ≡ Done → IfSome (held (D.images result.device.now) (D.attached result.device.now))
        (λ i. AreFormatted typed.now.file (rows_in (geometry_of typed.now.file.disk) i.view)) }
    ensures later { D.faults ground.entry.device.now ≤ D.faults result.device.now }
    ensures cause { formatting.new.end ≡ Failed → Rose (D.faults ground.entry.device.now) (D.faults result.device.now) }
{
    on_stack(alloc, typed, ground, formatting)
}

/// Formats all layers of a file, the lowest first, on the attached image, which is all zeros.
fn format_layers<D: Device>(alloc: Global, typed: &Typed, device: &mut D) -> FormatEnd
    requires holds { Holds (geometry_of typed.now.file.disk) (D.images device.old) (D.attached device.old) }
    requires blank { IfSome (held (D.images device.old) (D.attached device.old)) (IsBlank (geometry_of typed.now.file.disk)) }
    ensures still { D.attached device.new ≡ D.attached device.old }
    ensures told { Tells (AttachedTurns (KeepsHeader (geometry_of typed.now.file.disk)) (D.attached device.old)) (D.images device.old) (D.images device.new) }
    ensures rows { result ≡ Done → IfSome (held (D.images device.new) (D.attached device.new))
        (λ i. AreFormatted typed.now.file (rows_in (geometry_of typed.now.file.disk) i.view)) }
    ensures later { D.faults device.old ≤ D.faults device.new }
    ensures cause { result ≡ Failed → Rose (D.faults device.old) (D.faults device.new) }
{
    let mut formatting = Formatting {
        end: FormatEnd::Memory,
    };
    let ground = DeviceGround::new(alloc, device, typed.geometry());
    format_ground(alloc, typed, ground, &mut formatting).into_device();
    formatting.end
}

/// Creates the image of that name, all zeros, and formats all layers of a file on it, whose rows are then written, though they may not all stay yet.
pub fn fill<D: Device>(alloc: Global, typed: &Typed, name: &Text, device: &mut D) -> FormatEnd
    ensures filled { Fills typed.now.file name.now result (D.images device.new) (D.attached device.new) }
    ensures others { Tells (OthersStay name.now) (D.images device.old) (D.images device.new) }
    ensures later { D.faults device.old ≤ D.faults device.new }
    ensures cause { result ≡ Failed → Rose (D.faults device.old) (D.faults device.new) }
{
    let geometry = typed.geometry();
    match device.create(name, block_size(geometry), geometry.rows as u32 + 1) {
        Made::Done => format_layers(alloc, typed, device),
        Made::Failed => FormatEnd::Failed,
        Made::Memory => FormatEnd::Memory,
    }
}
