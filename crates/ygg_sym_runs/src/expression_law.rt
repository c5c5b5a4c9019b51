//! What the terms of an expression are worth, where the nodes after it are a bank, as the code makes them.

ghost use Rattle.ygg_sym_runs.specs.ExpressionMeaning.{ExpressionsMean};

/// In every environment the terms of an expression without a type error are worth its value.
pub fn expressions_mean()
    ensures { ExpressionsMean }
{}
