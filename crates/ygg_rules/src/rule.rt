//! Rules that are stored beside the fact that they answer what the row of their kind says.

ghost use Rattle.std.specs.Prelude.{◌≡◌};
ghost use Rattle.ygg_rules.specs.Rows.{row};

use crate::view::{Rewrite, View};

/// The rows of the table of rules.
#[derive(Clone, Copy, Drop)]
pub enum RuleKind {
    /// A term of known operands is a constant, and a pick on a known test one of its operands.
    Fold,
    /// A conjunction with all ones is the other operand.
    AndOnes,
    /// A conjunction with 0 is 0.
    AndZero,
    /// A disjunction with 0 is the other operand.
    OrZero,
    /// A sum with 0 is the other operand.
    AddZero,
    /// An operand equals itself.
    EqSelf,
    /// A pick from one operand is that operand.
    PickSame,
}

/// What answers for a rule.
pub type Judge = Box<dyn Fn(&View) -> Rewrite>;

/// A stored closure that answers every view as the row of its kind says.
pub struct Rule {
    kind: RuleKind,
    judge: Judge,
    ghost callable: { Judge.IsAlwaysCallable judge },
    ghost answers: { (v : _) (r : _) → Judge.post judge v r → r ≡ row kind v.now },
}

impl Drop for Rule {
    fn drop(self) {
        let Rule { kind: _, judge } = self;
        drop(judge);
    }
}

impl Rule {
    /// The rule of this kind that asks this judge.
    pub fn new(kind: RuleKind, judge: Judge) -> Rule
        requires callable { Judge.IsAlwaysCallable judge }
        requires answers { (v : _) (r : _) → Judge.post judge v r → r ≡ row kind v.now }
        ensures { result.kind ≡ kind }
    {
        Rule { kind, judge }
    }

    /// What the rule answers of a view.
    pub fn answer(&self, view: &View) -> Rewrite
        ensures { result ≡ row self.now.kind view.now }
    {
        (self.judge)(view)
    }
}
