use crate::reason::ImageReason;
use ygg_list::NoMemory;

/// Why an image isn't mounted.
#[derive(Clone, Copy, Drop)]
pub enum Unmounted {
    /// It is refused.
    Refused(ImageReason),
    /// There is no image of that name.
    Absent,
    /// The device failed.
    DeviceFailed,
    /// No memory was left.
    Memory,
}

impl From<NoMemory> for Unmounted {
    ghost use Rattle.std.specs.Prelude.{◌≡◌};
    ghost use Rattle.ygg_run_image.specs.declared.unmounted.Unmounted.TheVariants as unmounted;

    ghost from_gives = { λ error made. made ≡ unmounted.Memory };

    fn from(_error: NoMemory) -> Unmounted {
        Unmounted::Memory
    }
}
