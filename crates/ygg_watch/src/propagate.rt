ghost use Rattle.std.specs.Prelude.{◌≡◌, ◌<◌, ◌≤◌, ◌↔◌, ℕ, OnOk, OnErr, length, IsNone, IfSome};
ghost use Rattle.ygg_watch.specs.Trail.{IsAssigned, IsQuietBefore};
ghost use Rattle.ygg_watch.specs.Propagation.{Propagation, IsWithin, with_clause, decided, Spreads, back_to, IsConflict, HasValue};

use crate::PackedEntry;
use crate::found::{Assigned, Found};
use ygg_cnf::{Clause, Lit};
use ygg_cnf_set::PackedClause;
use ygg_list::NoMemory;

/// Holds clauses and assigned literals, and finds what they imply. Its calls may come in any order that their conditions
/// allow. All but `add` take no memory.
pub trait Propagate {
    /// The held clauses, the assigned literals in order, the greatest open level and the bound of the variables.
    ghost state: { Self → Propagation };

    /// Makes the clause the next one held. After running out of memory nothing has changed.
    fn add(&mut self, clause: &Clause) -> Result<(), NoMemory>
        requires { IsWithin (state self.old).variable_count clause.now }
        ensures ok { OnOk result (state self.new ≡ with_clause (state self.old) clause.now) }
        ensures err { OnErr result (state self.new ≡ state self.old) };

    /// Opens the next level, and assigns the literal there without reason.
    fn decide(&mut self, lit: Lit)
        requires variable_count { lit.var < (state self.old).variable_count }
        requires fresh { IsAssigned (state self.old).trail lit.var → ⊥ }
        ensures { state self.new ≡ decided (state self.old) lit };

    /// Assigns implied literals at the greatest open level, until nothing more is implied or a held clause is false.
    fn spread(&mut self) -> Found
        ensures spreads { Spreads (state self.old) (state self.new) }
        ensures quiet { (result ≡ Found.Quiet) ↔ ((id : ℕ) → IsConflict (state self.new).clauses (state self.new).trail id → ⊥) }
        ensures open { result ≡ Found.Quiet → IsQuietBefore (state self.new).clauses (state self.new).trail (length (state self.new).trail) }
        ensures found { (id : ℕ) → result ≡ Found.False id → IsConflict (state self.new).clauses (state self.new).trail id };

    /// Closes the levels above the given one, and takes their literals away.
    fn back(&mut self, level: u64)
        requires { level ≤ (state self.old).level }
        ensures { state self.new ≡ back_to (state self.old) level };

    /// The value of a variable, with its level and reason.
    fn assigned(&self, var: u64) -> Option<Assigned>
        ensures none { IsNone result ↔ (IsAssigned (state self.now).trail var → ⊥) }
        ensures some { IfSome result (HasValue (state self.now).trail var) };
}

/// A propagation that lends its clauses and its trail.
pub trait Trail: Propagate {
    /// The held clauses. The first has the number 1.
    fn clauses(&self) -> &[PackedClause]
        ensures { result.now ≡ (Self.state self.now).clauses };

    /// The assigned literals in order.
    fn trail(&self) -> &[PackedEntry]
        ensures { result.now ≡ (Self.state self.now).trail };

    /// By variable, the place of its entry in the trail. It is advice, and nothing is said of it.
    fn places(&self) -> &[u32];
}
