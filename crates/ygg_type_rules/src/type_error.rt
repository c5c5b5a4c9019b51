use ygg_base::Reason;
use ygg_syntax::tree::Place;

/// Where a file breaks a rule, and why it is refused there: from `Unknown` to `TooManyChoices`.
#[derive(Clone, Copy)]
pub struct TypeError {
    pub place: Place,
    pub reason: Reason,
}
