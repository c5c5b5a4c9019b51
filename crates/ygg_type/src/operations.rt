//! How many picks the specification of an operation takes.

ghost use Rattle.std.specs.Prelude.{◌≡◌, None};
ghost use Rattle.ygg_type.specs.ygg_type_rules.TypeErrors.{first_after};
ghost use Rattle.ygg_type.specs.ygg_type_rules.Limits.{picks_fit};
ghost use Rattle.ygg_type.specs.ygg_type_rules.Layers.{fall_picks, picks_errors};

use crate::first::First;
use crate::limits::are_picks;
use ygg_base::Reason;
use ygg_syntax::tree::{Block, Operation};
use ygg_type_rules::choices;

/// Whether the specification may take as many picks as it does where power fails within an operation of a layer with this
/// `crash` block.
#[tactic(auto, using(crate::proofs::Counted::more_picks_stay))]
fn may_fall(operation: &Operation, crash: &Block) -> bool
    ensures { result ≡ picks_fit (fall_picks operation.now crash.now) }
{
    match &operation.on_crash {
        None => are_picks(1 + choices(&operation.spec) + choices(crash)),
        Some(block) => are_picks(choices(block) + choices(crash)),
    }
}

/// The picks of an operation of a layer with this `crash` block.
#[tactic(auto, using(crate::proofs::Counted::picks_stay))]
pub fn picks(first: &mut First, operation: &Operation, crash: &Block)
    ensures { first.new.type_error ≡ first_after first.old.type_error (picks_errors operation.now crash.now) }
{
    first.check(
        are_picks(choices(&operation.spec)),
        Reason::TooManyChoices,
        operation.name.place,
    );
    first.check(
        may_fall(operation, crash),
        Reason::TooManyChoices,
        operation.name.place,
    );
}
