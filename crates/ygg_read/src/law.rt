ghost use Rattle.ygg_read.specs.Laws.{Complete};

/// Where a file derives from tokens, the pending symbols take them all, so nothing derives where reading is refused.
pub fn complete()
    ensures { Complete }
{}
