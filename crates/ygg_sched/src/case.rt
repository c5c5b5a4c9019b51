//! Obligations of a file by their places.

/// What an obligation asks of a layer.
#[derive(Clone, Copy, Drop)]
pub enum CaseKind {
    /// Formatting gives a state that is related to the specification's start.
    Init,
    /// A whole operation does what its specification does.
    Call,
    /// An operation that power cuts, and a recovery, leave what its specification may leave.
    Cut,
    /// A whole background step changes nothing that the specification sees.
    Tick,
    /// A background step that power cuts, and a recovery, leave what power loss alone may leave.
    CutTick,
    /// Power loss between operations, and a recovery, leave what the specification's power loss may leave.
    Idle,
    /// A recovery that power cuts, and another, end where one whole recovery ends.
    Again,
}

/// An obligation of a file: the layer's place from the bottom one on, what is asked, and the place of the operation or background step in the
/// layer's list, both places from 0. Where the kind has neither the number counts for nothing.
#[derive(Clone, Copy, Drop)]
pub struct Case {
    /// The layer's place.
    pub layer: u32,
    /// What is asked.
    pub kind: CaseKind,
    /// The place of the operation or background step.
    pub number: u32,
}
