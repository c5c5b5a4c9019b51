//! Shorter refutations: what a search finds, derived again by shorter chains.
//!
//! Most of what chains name are the given clauses, over and over. So steps that the last one doesn't rest on are left out; a literal that is false at the
//! beginning gets one step for all chains that cross it out; clauses are put in an order in which one mostly stands behind the clause that brings
//! what it crosses out; and two that follow each other in many chains get a step for both, again and again. How that is done promises nothing: the
//! checker judges what comes of it, and where that doesn't refute, or has more steps than it may, the log that was given is the answer.
#![tactic(auto)]

mod chain_builder;
mod joining;
mod lists;
mod needed;
mod pairs;
mod rebuilding;
mod rebuilt;
mod refutation;
mod shortening;
mod writing;

pub use shortening::shorten;
