/// How formatting ended.
#[derive(Clone, Copy, Drop)]
pub enum FormatEnd {
    /// The layers are formatted.
    Done,
    /// The device failed.
    Failed,
    /// No memory was left.
    Memory,
}
