use ygg_base::Refusal;

/// Why a play is given up.
#[derive(Clone, Copy, Drop)]
pub enum PlayHalted {
    /// A stop isn't reached: refusal 44 at its line.
    Unreached(Refusal),
    /// The sink failed.
    SinkFailed,
    /// No memory was left.
    Memory,
}
