ghost use Rattle.std.specs.Prelude.{◌≡◌};
ghost use Rattle.ygg_cnf.specs.Literals.{truth_of};

use ygg_list::Sequence;

/// A truth value for each variable: variable v has place v - 1, and is false past the end.
pub type Assignment = Sequence<bool>;

/// The truth value that the assignment gives to a variable.
pub fn truth(assignment: &Assignment, variable: u64) -> bool
    ensures { result ≡ truth_of assignment.now variable }
{
    if variable == 0 {
        return false;
    }
    match assignment.as_slice().get((variable - 1) as usize) {
        Some(value) => *value,
        None => false,
    }
}
