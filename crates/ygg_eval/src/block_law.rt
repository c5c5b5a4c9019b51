//! What holds of the layers of every file.

ghost use Rattle.ygg_eval.specs.Numbers.{ListedIsNumbered, NumberedIsListed, BelowIsNumbered};

/// The layers of a file by number, as runs of blocks speak of them, and by list, as histories do, are the same: a layer's number is how many
/// layers stand below it, and so is that of what the next layer is specified over.
pub fn layers_by_number()
    ensures listed { ListedIsNumbered }
    ensures numbered { NumberedIsListed }
    ensures below { BelowIsNumbered }
{}
