//! Rules in their order.

ghost use Rattle.std.specs.Prelude.{◌≡◌, map};
ghost use Rattle.ygg_rules.specs.Rows.{book_row};

use crate::rule::Rule;
use crate::view::{Rewrite, View};

/// What answers for a list of kinds of rules. Code over terms is generic in it: a type that holds stored closures,
/// as a book does, can't stand in the signatures of functions that call one another in a circle.
pub trait Book {
    ghost use Rattle.std.specs.Prelude.{List};
    ghost use Rattle.ygg_rules.specs.Rows.{book_row};
    ghost use Rattle.ygg_rules.specs.declared.rule.RuleKind.{RuleKind};

    /// The kinds, in order.
    ghost kinds: { Self → List RuleKind };

    /// The first answer that isn't `Keep`, and `Keep` where all rules keep.
    fn view(&self, view: &View) -> Rewrite
        ensures { result ≡ book_row (kinds self.now) view.now };
}

/// Rules in the order in which they are asked. Contracts see a book as the list of its kinds.
#[derive(Drop)]
pub struct RuleBook {
    rules: Vec<Rule>,
}

impl RuleBook {
    /// The book of these rules.
    pub fn new(rules: Vec<Rule>) -> RuleBook
        ensures { map (λ rule. rule.kind) result.rules.items ≡ map (λ rule. rule.kind) rules.items }
    {
        RuleBook { rules }
    }

    /// What the first rule answers that isn't `Keep`, and `Keep` where all rules keep.
    pub fn view(&self, view: &View) -> Rewrite
        ensures { result ≡ book_row (map (λ rule. rule.kind) self.now.rules.items) view.now }
    {
        for rule in self.rules.as_slice() {
            let answer = rule.answer(view);
            if !matches!(answer, Rewrite::Keep) {
                return answer;
            }
        }
        Rewrite::Keep
    }
}

impl Book for RuleBook {
    ghost use Rattle.std.specs.Prelude.{map};

    ghost kinds = { λ book. map (λ rule. rule.kind) book.rules.items };

    fn view(&self, view: &View) -> Rewrite {
        RuleBook::view(self, view)
    }
}
