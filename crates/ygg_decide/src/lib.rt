//! One term decided within a budget: whether it is 1 in every environment.
//!
//! An example, which asks whether adding and taking away `b` gives `a` back, for all words of 8 bits:
//!
//! ```
//! let book = RuleBook::new(Vec::new(alloc));
//! let mut bank = Bank::new(alloc)?;
//! let a = bank.make(Node::Input { number: 0, width: 8 }, &book)?;
//! let b = bank.make(Node::Input { number: 1, width: 8 }, &book)?;
//! let sum = bank.make(Node::Bin { op: Op::Add, a, b }, &book)?;
//! let back = bank.make(Node::Bin { op: Op::Sub, a: sum, b }, &book)?;
//! let same = bank.make(Node::Bin { op: Op::Eq, a: back, b: a }, &book)?;
//! match decide(alloc, &mut bank, &book, same, 100_000)? {
//!     Decided::Valid(log) => { /* it holds: the log refutes the clauses of its opposite */ }
//!     Decided::Fails(env) => { /* the environment's words show that it doesn't */ }
//!     Decided::Spent(log) => { /* the budget was too small */ }
//! }
//! ```
#![tactic(auto)]

mod deciding;

pub use deciding::{Decided, decide};
pub use ygg_blast::{Bank, Book, Env, Id, clauses_mean_terms, clauses_of, put_clauses};
pub use ygg_list::NoMemory;
