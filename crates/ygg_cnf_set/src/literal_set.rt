ghost use Rattle.std.specs.Prelude.{◌≡◌, ◌≢◌, ◌<◌, ◌≤◌, ◌^◌, length, All, IsTrue, ◌↔◌, OnOk, Contains, ◌⊎◌};
ghost use Rattle.ygg_cnf_set.specs.LiteralSet.{code_of, Fits, InSet, IsSetOf};

use ygg_cnf::Lit;
use ygg_list::NoMemory;

/// The place of a literal in a set.
#[inline(always)]
pub fn code(lit: Lit) -> usize
    requires { code_of lit < 2 ^ 64 }
    ensures { result ≡ code_of lit }
{
    2 * lit.var as usize + lit.negated as usize
}

/// Makes room for so many places. No literal comes in. Its only error is out of memory.
#[inline(always)]
pub fn make_room(seen: &mut Vec<bool>, room: usize) -> Result<(), NoMemory>
    ensures ok { OnOk result (room ≤ length seen.new.items) }
    ensures longer { length seen.old.items ≤ length seen.new.items }
    ensures same { IsSetOf seen.new.items (InSet seen.old.items) }
{
    if seen.len() < room {
        lengthen(seen, room)?;
    }
    Ok(())
}

/// Adds places, so many that there are `room`. No literal comes in. Its only error is out of memory.
#[cold]
#[inline(never)]
fn lengthen(seen: &mut Vec<bool>, room: usize) -> Result<(), NoMemory>
    requires { length seen.old.items ≤ room }
    ensures ok { OnOk result (room ≤ length seen.new.items) }
    ensures longer { length seen.old.items ≤ length seen.new.items }
    ensures same { IsSetOf seen.new.items (InSet seen.old.items) }
{
    seen.resize(room, false)?;
    Ok(())
}

/// Whether the literal is in the set.
#[inline(always)]
pub fn contains(seen: &[bool], lit: Lit) -> bool
    requires { Fits (length seen.now) lit }
    ensures { IsTrue result ↔ InSet seen.now lit }
{
    seen[code(lit)]
}

/// Puts the literal in.
#[inline(always)]
pub fn insert(seen: &mut [bool], lit: Lit)
    requires { Fits (length seen.old) lit }
    ensures { IsSetOf seen.new (λ y. InSet seen.old y ⊎ (y ≡ lit)) }
{
    seen[code(lit)] = true;
}

/// Takes the literal out.
#[inline(always)]
pub fn remove(seen: &mut [bool], lit: Lit)
    requires { Fits (length seen.old) lit }
    ensures { IsSetOf seen.new (λ y. InSet seen.old y × (y ≢ lit)) }
{
    seen[code(lit)] = false;
}

/// Takes the clause's literals out.
pub fn remove_all(seen: &mut [bool], clause: &[Lit])
    requires { All (Fits (length seen.old)) clause.now }
    ensures { IsSetOf seen.new (λ y. InSet seen.old y × (Contains clause.now y → ⊥)) }
{
    for lit in clause {
        remove(seen, *lit);
    }
}
