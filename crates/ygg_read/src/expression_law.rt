ghost use Rattle.ygg_read.specs.ExpressionLaws.{Complete};

/// Where an expression derives that no arguments can follow, the pending symbols take its tokens, and indices may come next.
pub fn complete()
    ensures { Complete }
{}
