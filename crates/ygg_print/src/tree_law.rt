ghost use Rattle.ygg_print.specs.TreeLaws.{LaidOut, TokensAreMarks};

/// The tokens of a canonical text are those that were laid out: a text of marks of the language isn't refused,
/// and its tokens have these marks in order.
pub fn laid_out()
    ensures { LaidOut }
{}

/// The tokens of every text have marks of the language, so that they may be laid out.
pub fn tokens_are_marks()
    ensures { TokensAreMarks }
{}
