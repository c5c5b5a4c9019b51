//! What a layer is specified over.

use crate::layer::SymLayer;
use ygg_syntax::tree::DiskText;

/// What a layer is specified over: the disk, or the specification of the layer below.
#[derive(Clone, Copy)]
pub enum SymBelow<'a> {
    /// The disk, of this kind and size.
    Disk(DiskText),
    /// The layer below.
    Layer(SymLayer<'a>),
}
