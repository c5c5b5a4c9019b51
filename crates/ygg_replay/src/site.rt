//! A layer of a file.

use std::alloc::Global;
use ygg_sched::Typed;
use ygg_syntax::tree::Layer;

/// A layer of a file with its place from the bottom one on, and where memory comes from.
#[derive(Clone, Copy)]
pub struct ReplaySite<'a> {
    pub alloc: Global,
    pub typed: &'a Typed,
    pub place: u32,
    pub layer: &'a Layer,
}
