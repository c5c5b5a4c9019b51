//! Zeros for declared names.

ghost use Rattle.std.specs.Prelude.{◌≡◌, IfOk};
ghost use Rattle.ygg_eval.specs.Zeros.{AreShapes, zero_values};

use std::alloc::Global;
use ygg_eval_expr::shape_of;
use ygg_list::NoMemory;
use ygg_syntax::tree::Declared;
use ygg_value::{Values, zero};

/// Zeros for declared names, in order. Its only error is out of memory.
pub fn zeros(alloc: Global, declared: &[Declared]) -> Result<Values, NoMemory>
    requires { AreShapes declared.now }
    ensures { IfOk result (λ values. values ≡ zero_values declared.now) }
{
    let mut values = Values::new(alloc);
    for variable in declared {
        let value = zero(alloc, shape_of(variable.shape))?;
        values.push(value)?;
    }
    Ok(values)
}
