//! Laws of images. A call does nothing; what it ensures holds.

ghost use Rattle.ygg_run_image.specs.Laws.{
  ImagesHoldTheirRows,
  ImagesAreBlocks,
  ImagesAreAccepted,
  BlocksAreImages,
  HeadersHoldNoRows,
  WrittenRowsAreHeld,
  ZerosHoldZeros,
};

/// An image of rows is theirs alone, and where it is sealed it is accepted; blocks of rows behind a header are the image of the rows that they hold.
pub fn images_are_of_rows()
    ensures held { ImagesHoldTheirRows }
    ensures blocks { ImagesAreBlocks }
    ensures accepted { ImagesAreAccepted }
    ensures images { BlocksAreImages }
{}

/// What a written block makes of the rows that blocks hold.
pub fn rows_are_written()
    ensures header { HeadersHoldNoRows }
    ensures row { WrittenRowsAreHeld }
    ensures zeros { ZerosHoldZeros }
{}
