use crate::turns::Turns;
use std::alloc::Global;
use ygg_list::NoMemory;

/// How much a search has done.
#[derive(Clone, Copy)]
pub struct Work {
    /// Clauses that were found false, and learned from.
    pub conflicts: u64,
    /// Values that variables had and lost again.
    pub values: u64,
}

/// Where a variable stands.
#[derive(Clone, Copy)]
struct Rank {
    activity: u64,
    /// Its place in the heap, and `usize::MAX` where it was taken.
    place: usize,
    /// Whether it was used in this conflict, where that is kept.
    is_used: bool,
}

/// Variables by activity, the most active first, with the value that each had last. Activity is made by two rules in turns. One is that of the solver Chaff
/// with the decay of MiniSat: each use adds to it, and what is added grows with time, so that later conflicts weigh more. By the other the variables that
/// the last conflict used are the most active ones, as in the queue of the solver Siege, and among themselves stay in order.
pub struct Order {
    /// By variable.
    ranks: Vec<Rank>,
    /// Variables as a binary heap: none is more active than the one at half its place.
    heap: Vec<usize>,
    /// By variable, its last value.
    phases: Vec<bool>,
    /// What the next conflict adds to an activity.
    step: u64,
    turns: Turns,
    /// The variables that were used in this conflict, each once and with its activity. It is empty in turns of the sum.
    used: Vec<(u64, usize)>,
    /// The activity that the last use gave last, or the greatest one when its turn began.
    top: u64,
    work: Work,
}

impl Drop for Order {
    fn drop(self) {
        let Order {
            ranks,
            heap,
            phases,
            step: _,
            turns: _,
            used,
            top: _,
            work: _,
        } = self;
        drop(ranks);
        drop(heap);
        drop(phases);
        drop(used);
    }
}

impl Order {
    /// Each variable below `variable_count`, none of them active. Its only error is out of memory.
    pub fn new(alloc: Global, variable_count: usize) -> Result<Order, NoMemory> {
        let taken = Rank {
            activity: 0,
            place: usize::MAX,
            is_used: false,
        };
        let mut order = Order {
            ranks: Vec::from_elem(alloc, taken, variable_count)?,
            heap: Vec::with_capacity(alloc, variable_count)?,
            phases: Vec::from_elem(alloc, false, variable_count)?,
            step: 1 << 20,
            turns: Turns::new(),
            used: Vec::new(alloc),
            top: 0,
            work: Work {
                conflicts: 0,
                values: 0,
            },
        };
        for var in 0..variable_count {
            order.put(var)?;
        }
        Ok(order)
    }

    /// The value that the variable had last.
    pub fn phase(&self, var: usize) -> bool {
        let phases = self.phases.as_slice();
        var < phases.len() && phases[var]
    }

    /// How much was done so far.
    pub fn work(&self) -> Work {
        self.work
    }

    /// Keeps the value of a variable that loses it.
    pub fn keep_phase(&mut self, var: usize, value: bool) {
        self.work.values = self.work.values.saturating_add(1);
        self.set_polarity(var, value);
    }

    /// Sets the initial polarity of a variable: the value that it is to have first.
    pub fn set_polarity(&mut self, var: usize, value: bool) {
        let phases = self.phases.as_mut_slice();
        if var < phases.len() {
            phases[var] = value;
        }
    }

    /// Counts a use of the variable in a clause that a conflict is resolved with. Its only error is out of memory.
    pub fn count_use(&mut self, var: usize) -> Result<(), NoMemory> {
        if self.turns.is_by_last_use() {
            return self.keep_use(var);
        }
        self.add_use(var);
        Ok(())
    }

    /// Counts a use of the variable in the reason of a learned literal: it adds to the activity in any turn, since some families lead the search astray
    /// where it doesn't.
    pub fn count_reason(&mut self, var: usize) {
        self.add_use(var);
    }

    /// Adds to the activity of a variable.
    fn add_use(&mut self, var: usize) {
        if add(self.ranks.as_mut_slice(), var, self.step) >= 1 << 60 {
            self.scale();
        }
        rise(self.ranks.as_mut_slice(), self.heap.as_mut_slice(), var);
    }

    /// Keeps that the variable is used in this conflict.
    fn keep_use(&mut self, var: usize) -> Result<(), NoMemory> {
        let ranks = self.ranks.as_mut_slice();
        if var < ranks.len() && !ranks[var].is_used {
            ranks[var].is_used = true;
            self.used.push((ranks[var].activity, var))?;
        }
        Ok(())
    }

    /// Ends a conflict: what comes after it weighs more.
    pub fn end_conflict(&mut self) {
        self.work.conflicts = self.work.conflicts.saturating_add(1);
        self.step = self.step.saturating_add(self.step / 19);
        if self.step >= 1 << 58 || self.top >= 1 << 60 {
            self.scale();
        }
        if self.turns.count_conflict() {
            self.top = greatest(self.ranks.as_slice());
        }
    }

    /// Ends the uses of a conflict: the variables whose use was kept become the most active ones, in the order that they have.
    pub fn end_uses(&mut self) {
        self.used.sort_unstable();
        for (_, var) in &self.used {
            self.top = self.top.saturating_add(1);
            raise_to(self.ranks.as_mut_slice(), *var, self.top);
            rise(self.ranks.as_mut_slice(), self.heap.as_mut_slice(), *var);
        }
        self.used.clear();
    }

    /// Divides each activity and the step by the same number, long before a sum could be too great.
    fn scale(&mut self) {
        for rank in self.ranks.iter_mut() {
            rank.activity >>= 32;
        }
        self.step = (self.step >> 32) + 1;
        self.top >>= 32;
    }

    /// Puts the variable back, if it was taken. Its only error is out of memory.
    pub fn put(&mut self, var: usize) -> Result<(), NoMemory> {
        if place(self.ranks.as_slice(), var) == usize::MAX {
            self.heap.push(var)?;
            rise_last(self.ranks.as_mut_slice(), self.heap.as_mut_slice(), var);
        }
        Ok(())
    }

    /// Takes the most active variable, if one is left.
    pub fn take(&mut self) -> Option<usize> {
        let last = self.heap.pop()?;
        Some(take_first(self.ranks.as_mut_slice(), self.heap.as_mut_slice(), last))
    }
}

/// The activity of a variable, or 0 where it has none.
fn activity(ranks: &[Rank], var: usize) -> u64 {
    if var < ranks.len() {
        ranks[var].activity
    } else {
        0
    }
}

/// The place of a variable in the heap, or `usize::MAX` where it has none.
fn place(ranks: &[Rank], var: usize) -> usize {
    if var < ranks.len() {
        ranks[var].place
    } else {
        usize::MAX
    }
}

/// Writes the place of a variable, where there is room for it.
fn set_place(ranks: &mut [Rank], var: usize, place: usize) {
    if var < ranks.len() {
        ranks[var].place = place;
    }
}

/// Adds to the activity of a variable, and gives the sum.
fn add(ranks: &mut [Rank], var: usize, step: u64) -> u64 {
    let sum = activity(ranks, var).saturating_add(step);
    if var < ranks.len() {
        ranks[var].activity = sum;
    }
    sum
}

/// Sets the activity of a variable whose use was kept, and forgets that use.
fn raise_to(ranks: &mut [Rank], var: usize, activity: u64) {
    if var < ranks.len() {
        ranks[var].activity = activity;
        ranks[var].is_used = false;
    }
}

/// The greatest activity, or 0 where there is none.
fn greatest(ranks: &[Rank]) -> u64 {
    let mut top = 0;
    for rank in ranks {
        if rank.activity > top {
            top = rank.activity;
        }
    }
    top
}

/// Moves a variable up to where no parent is less active.
fn rise(ranks: &mut [Rank], heap: &mut [usize], var: usize) {
    let mut at = place(ranks, var);
    while 0 < at && at < heap.len() {
        let parent = (at - 1) / 2;
        let above = heap[parent];
        if activity(ranks, var) <= activity(ranks, above) {
            return;
        }
        heap[at] = above;
        heap[parent] = var;
        set_place(ranks, above, at);
        set_place(ranks, var, parent);
        at = parent;
    }
}

/// Moves a variable, which was put last, up to where no parent is less active.
fn rise_last(ranks: &mut [Rank], heap: &mut [usize], var: usize) {
    set_place(ranks, var, heap.len().wrapping_sub(1));
    rise(ranks, heap, var);
}

/// Takes the first variable of a heap whose last one was taken off already: that one takes its place, and moves down. It may be the first itself.
fn take_first(ranks: &mut [Rank], heap: &mut [usize], last: usize) -> usize {
    let mut first = last;
    if heap.len() > 0 {
        first = heap[0];
        heap[0] = last;
    }
    set_place(ranks, last, 0);
    set_place(ranks, first, usize::MAX);
    sink(ranks, heap);
    first
}

/// Moves the first variable down to where no child is more active.
fn sink(ranks: &mut [Rank], heap: &mut [usize]) {
    let mut at = 0;
    while at < heap.len() / 2 {
        let left = 2 * at + 1;
        let right = 2 * at + 2;
        let mut child = left;
        if left >= heap.len() {
            return;
        }
        if right < heap.len() && activity(ranks, heap[right]) > activity(ranks, heap[left]) {
            child = right;
        }
        let var = heap[at];
        let below = heap[child];
        if activity(ranks, below) <= activity(ranks, var) {
            return;
        }
        heap[at] = below;
        heap[child] = var;
        set_place(ranks, below, at);
        set_place(ranks, var, child);
        at = child;
    }
}
