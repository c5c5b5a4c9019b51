//! An obligation of a layer.

use ygg_syntax::tree::{Operation, Tick};

/// An obligation of a layer, with its operation or background step.
#[derive(Clone, Copy)]
pub enum SymObligation<'a> {
    /// Formatting gives a state that is related to the specification's start.
    Init,
    /// A whole operation does what its specification does.
    Call(&'a Operation),
    /// An operation that power cuts, and a recovery, leave what its specification may leave.
    Cut(&'a Operation),
    /// A whole background step changes nothing that the specification sees.
    Tick(&'a Tick),
    /// A background step that power cuts, and a recovery, leave what power loss alone may leave.
    CutTick(&'a Tick),
    /// Power loss between operations, and a recovery, leave what the specification's power loss may leave.
    Idle,
    /// A recovery that power cuts, and another, end where one whole recovery ends.
    Again,
}
