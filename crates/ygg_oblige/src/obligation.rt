use ygg_base::Text;
use ygg_list::Sequence;
use ygg_oblige_laws::Id;

/// What an obligation asks of a layer.
#[derive(Clone, Copy, Drop)]
pub enum Kind {
    /// Formatting gives a state that is related to the specification's start.
    Init,
    /// A whole operation does what its specification does.
    Call,
    /// An operation that power cuts, and a recovery, leave what its specification may leave.
    Cut,
    /// A whole background step changes nothing that the specification sees.
    Tick,
    /// A background step that power cuts, and a recovery, leave what power loss alone may leave.
    CutTick,
    /// Power loss between operations, and a recovery, leave what the specification's power loss may leave.
    Idle,
    /// A recovery that power cuts, and another, end where one whole recovery ends.
    Again,
}

/// An obligation of a layer, and the term that is 1 in every environment exactly where it holds.
#[derive(Drop)]
pub struct Obligation {
    /// Its name, as reports print it.
    pub name: Text,
    /// The layer's place in the file, from 0.
    pub layer: u32,
    /// What it asks.
    pub kind: Kind,
    /// The place, from 0, of its operation or background step in the layer's list, else 0.
    pub number: u32,
    /// Its place in the file's list, from 0.
    pub place: usize,
    /// Its term, of width 1.
    pub term: Id,
}

/// Obligations in order.
pub type Obligations = Sequence<Obligation>;
