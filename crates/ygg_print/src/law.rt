ghost use Rattle.ygg_print.specs.Laws.{CanonicalIsRead};

/// Reading gives a file again from the tokens of its canonical text, but for places: the tokens are taken of a text that has at
/// most 1,048,576 bytes, and then it isn't refused.
pub fn canonical_is_read()
    ensures { CanonicalIsRead }
{}
