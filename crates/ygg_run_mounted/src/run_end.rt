/// How a run ends.
#[derive(Clone, Copy, Drop)]
pub enum RunEnd {
    /// All was run.
    Done,
    /// The image is refused by this number.
    Refused(u8),
    /// There is no image of that name.
    Absent,
    /// The device failed.
    DeviceFailed,
    /// The sink failed.
    SinkFailed,
    /// No memory was left.
    Memory,
}
