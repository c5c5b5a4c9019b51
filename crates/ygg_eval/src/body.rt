//! The blocks of a layer file, and where a run of one stops.

/// Which block of a layer.
#[derive(Clone, Copy)]
pub enum Part {
    /// The block that begins the specification's state.
    Start,
    /// What an operation does.
    Spec,
    /// What an operation may leave that power has cut.
    OnCrash,
    /// What power loss does to the specification's state.
    Crash,
    /// The block that formats the machine below.
    Format,
    /// How an operation is implemented.
    Impl,
    /// A background step.
    Tick,
    /// The block that recovers after power loss.
    Recover,
}

/// A block of a file: the layer's place from the bottom one on, and the place of the operation or background step in the
/// layer's list, both from 0. Where the part is the only one of its layer the number counts for nothing.
#[derive(Clone, Copy)]
pub struct Body {
    pub layer: u32,
    pub part: Part,
    pub number: u32,
}

/// Where a run stops: within the call with so many whole calls before it, or when so many calls are whole and no further one
/// has begun.
#[derive(Clone, Copy)]
pub struct Stop {
    pub within: bool,
    pub event: u64,
}
