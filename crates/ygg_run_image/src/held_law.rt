//! A law of layers on a disk that a device holds. A call does nothing; what it ensures holds.

ghost use Rattle.ygg_run_image.specs.HeldLaws.{LayersStay};

/// Whatever layers on such a disk do leaves the same device attached to the same image, with its header and rows of the disk, and no other image changed.
pub fn layers_stay()
    ensures { LayersStay }
{}
