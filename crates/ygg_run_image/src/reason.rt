ghost use Rattle.std.specs.Prelude.{◌≡◌};
ghost use Rattle.ygg_run_image.specs.Judged.{number_of};

/// Why an image is refused.
#[derive(Clone, Copy, Drop)]
pub enum ImageReason {
    /// It is shorter than a block, doesn't begin as an image does, or its seal isn't 1.
    Unsealed,
    /// It is of a disk of another size, or has a length that such an image can't have.
    OtherDisk,
    /// A number doesn't fit a word, or a byte after a row isn't zero.
    SpareBits,
}

impl ImageReason {
    /// The number that a refusal gives for it.
    pub fn number(self) -> u8
        ensures { result ≡ number_of self }
    {
        match self {
            ImageReason::Unsealed => 51,
            ImageReason::OtherDisk => 52,
            ImageReason::SpareBits => 53,
        }
    }
}
