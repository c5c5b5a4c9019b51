//! Images of disks: a header, and a block for each row, as bytes; why an image is refused; an image on a device as a disk that is mounted, what disk calls
//! make of it, the layers that are put on it, and what these keep of the device; and the layers of a file formatted on an image of a device.
#![tactic(auto)]

mod beginning;
mod device_ground;
mod end;
mod errand;
mod filling;
mod formatting;
pub mod ground_law;
mod header;
pub mod held_law;
mod judging;
pub mod law;
mod levels;
mod mounting;
mod on_device;
mod reason;
mod row;
mod rows;
mod seal;
mod size;
mod unmounted;

pub use device_ground::DeviceGround;
pub use end::FormatEnd;
pub use errand::Errand;
pub use header::{judge_header, write_header};
pub use law::images_are_of_rows;
pub use levels::on_stack;
pub use mounting::mount;
pub use on_device::format;
pub use reason::ImageReason;
pub use row::{decode_row, encode_row, is_row_block};
pub use size::block_size;
pub use unmounted::Unmounted;
pub use ygg_base::Device;
