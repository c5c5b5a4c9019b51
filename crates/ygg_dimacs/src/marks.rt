//! A clause that is read, each of whose literals is kept once.

ghost use Rattle.std.specs.Prelude.{◌≡◌, ◌<◌, ◌^◌, [], Contains, OnOk, IfOk};
ghost use Rattle.ygg_cnf.specs.Literals.{with_literal};
ghost use Rattle.ygg_cnf_set.specs.LiteralSet.{InSet, IsSetOf};
ghost use Rattle.ygg_dimacs.specs.Marks.{IsMarked};

use ygg_base::NoMemory;
use ygg_cnf::{Clause, Lit};
use ygg_cnf_set::{contains, insert, make_room, remove_all};

/// Adds a literal at the end of the clause, where it isn't marked as one of it yet. Its only error is out of memory.
pub fn include(clause: &mut Clause, marks: &mut Vec<bool>, literal: Lit) -> Result<(), NoMemory>
    requires marked { IsMarked marks.old.items clause.old }
    requires small { literal.var < 2 ^ 32 }
    ensures with { OnOk result (clause.new ≡ with_literal clause.old literal) }
    ensures marked { OnOk result (IsMarked marks.new.items clause.new) }
{
    make_room(marks, 2 * literal.var as usize + 2)?;
    if contains(marks.as_slice(), literal) {
        return Ok(());
    }
    clause.push(literal)?;
    insert(marks.as_mut_slice(), literal);
    Ok(())
}

/// Takes the marks of a clause's literals away.
pub fn clear(marks: &mut Vec<bool>, clause: &Clause)
    requires { IsMarked marks.old.items clause.now }
    ensures { IsMarked marks.new.items [] }
{
    remove_all(marks.as_mut_slice(), clause.as_slice());
}
