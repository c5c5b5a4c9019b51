//! The terms of obligations mean them.

ghost use Rattle.ygg_oblige_laws.specs.Laws.{FileTermsMean, LayerInputs, LayerTermsMean};

/// In every bank that begins with them, the terms of a typed layer's obligations mean these: an environment in which one is 0 shows a schedule that
/// violates its obligation, and a schedule that does shows such an environment.
pub fn layer_terms_mean()
    ensures { LayerTermsMean }
{}

/// The terms of a typed layer's obligations have inputs of their own numbers alone.
pub fn layer_inputs()
    ensures { LayerInputs }
{}

/// The terms of the obligations of a typed file mean these, in the bank that they make.
pub fn file_terms_mean()
    ensures { FileTermsMean }
{}
