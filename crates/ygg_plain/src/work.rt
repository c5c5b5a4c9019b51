//! How much may be tried.

use std::alloc::Global;
use ygg_list::NoMemory;
use ygg_replay::{Schedule, Typed};
use ygg_sched::{Case, CaseKind};
use ygg_syntax::tree::{Layer, Operation};
use ygg_syntax::{Weights, choices, lists};
use ygg_value::{Shape, Values, shape_of};

/// The most replays of one schedule.
const MOST_REPLAYS: u32 = 400;

/// The most work on one schedule, in parts of blocks and expressions that are run, and words that are copied.
const MOST_WORK: u64 = 20_000_000;

/// With so many choices a replay is more work than that.
const MOST_DOUBLED: u64 = 25;

/// What may still be tried.
#[derive(Clone, Copy, Drop)]
pub struct Left {
    /// So many replays.
    pub replays: u32,
    /// So much work.
    pub work: u64,
    /// How many steps were kept.
    pub kept: u32,
}

impl Left {
    /// All.
    pub fn all() -> Left {
        Left {
            replays: MOST_REPLAYS,
            work: MOST_WORK,
            kept: 0,
        }
    }

    /// Takes work, and answers whether there was so much.
    pub fn takes(&mut self, work: u64) -> bool {
        if self.work < work {
            self.work = 0;
            return false;
        }
        self.work -= work;
        true
    }

    /// Takes a replay with its work, and answers whether there was one.
    pub fn takes_replay(&mut self, work: u64) -> bool {
        if self.replays == 0 {
            return false;
        }
        self.replays -= 1;
        self.takes(work)
    }

    /// Counts a step that is kept.
    pub fn keeps(&mut self) {
        self.kept = self.kept.saturating_add(1);
    }
}

/// How many words these values have.
fn words_in(values: &Values) -> u64 {
    let mut sum: u64 = 0;
    for value in values.as_slice() {
        let words = match shape_of(value) {
            Shape::Word { .. } => 1,
            Shape::Row { words, .. } => words as u64,
            Shape::Table { rows, words, .. } => rows as u64 * words as u64,
        };
        sum = sum.saturating_add(words);
    }
    sum
}

/// How many words a schedule has.
pub fn size(schedule: &Schedule) -> u64 {
    words_in(&schedule.state)
        .saturating_add(words_in(&schedule.memory))
        .saturating_add(words_in(&schedule.low))
        .saturating_add(words_in(&schedule.args))
}

/// How many choices a specification's step takes at most for an obligation of an operation that power may cut.
fn choices_of(layer: &Layer, operation: Option<&Operation>, kind: CaseKind) -> u64 {
    let crash = choices(&layer.crash);
    match (kind, operation) {
        (CaseKind::Call, Some(operation)) => choices(&operation.spec),
        (CaseKind::Cut, Some(operation)) => match &operation.on_crash {
            Some(block) => choices(block).saturating_add(crash),
            None => choices(&operation.spec)
                .saturating_add(1)
                .saturating_add(crash),
        },
        (CaseKind::CutTick, _) | (CaseKind::Idle, _) => crash,
        _ => 0,
    }
}

/// The weight of a layer's relation, of what is settled, and of its recovery.
fn weight_of_layer(known: &Weights<'_>, layer: &Layer) -> u64 {
    let mut sum = known.expression(&layer.relate);
    for e in lists::expr::as_slice(&layer.always) {
        sum = sum.saturating_add(known.expression(e));
    }
    for e in lists::expr::as_slice(&layer.settled) {
        sum = sum.saturating_add(known.expression(e));
    }
    sum.saturating_add(known.block(&layer.recover))
}

/// How much work a replay of a schedule is: that of its runs, and for each list of the specification's picks that of its step and of the relation.
pub fn work_of(
    alloc: Global,
    typed: &Typed,
    case: Case,
    schedule: &Schedule,
) -> Result<u64, NoMemory> {
    let file = typed.file();
    let mut known = Weights::new(alloc);
    for def in lists::def::as_slice(&file.defs) {
        let _ = known.define(def)?;
    }
    let Some(layer) = lists::layer::get(&file.layers, case.layer as usize) else {
        return Ok(0);
    };
    let number = case.number as usize;
    let operation = match case.kind {
        CaseKind::Call | CaseKind::Cut => {
            lists::operation::as_slice(&layer.operations).get(number)
        }
        _ => None,
    };
    let tick = match case.kind {
        CaseKind::Tick | CaseKind::CutTick => lists::tick::as_slice(&layer.ticks).get(number),
        _ => None,
    };
    let mut one = size(schedule).saturating_add(weight_of_layer(&known, layer));
    if let Some(operation) = operation {
        one = one
            .saturating_add(known.block(&operation.implementation))
            .saturating_add(known.block(&operation.spec));
    }
    if let Some(tick) = tick {
        one = one.saturating_add(known.block(&tick.body));
    }
    let choices = choices_of(layer, operation, case.kind);
    let lists = if choices < MOST_DOUBLED {
        1u64 << choices
    } else {
        MOST_WORK
    };
    Ok(one.saturating_mul(lists))
}
