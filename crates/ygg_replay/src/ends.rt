//! The runs that an obligation speaks of, with a schedule's picks.

ghost use Rattle.std.specs.Prelude.{◌≡◌, ◌&&◌, [], codes, IfOk, IfSome, IsTrue, Some};
ghost use Rattle.ygg_syntax.specs.declared.grammar.BlockKind.TheVariants as kind;
ghost use Rattle.ygg_syntax.specs.declared.tree.Block.{Block};
ghost use Rattle.ygg_sched.specs.ygg_meaning.Machine.{based};
ghost use Rattle.ygg_sched.specs.ygg_meaning.Obligations.{Again, Idle, Obligation};
ghost use Rattle.ygg_sched.specs.ygg_meaning.Violates.{FallsSo, Formatted, RanWhole};
ghost use Rattle.ygg_sched.specs.ygg_meaning.Shapes.{shape_in};
ghost use Rattle.ygg_sched.specs.ygg_meaning.Stack.{table_named, tables_of};
ghost use Rattle.ygg_value.specs.Shapes.{zero_of};
ghost use Rattle.ygg_eval.specs.Bodies.{IsRunnable, block_in, kind_of};
ghost use Rattle.ygg_replay.specs.Ends.{
  EndFits,
  FellAndRecovered,
  FellIn,
  FellOrNot,
  ReachedOrNot,
  RecoveredFrom,
  RecoveredOrNot,
  end_at,
  same_list,
  seen_at,
};
ghost use Rattle.ygg_replay.specs.Runs.{RanBy};
ghost use Rattle.ygg_sched.specs.Cases.{obligation_at};
ghost use Rattle.ygg_replay.specs.Schedules.{schedule_fits};
ghost use Rattle.ygg_replay.specs.Sites.{IsBelow, IsHere, LowFits, closed_in, low_at, machine_in, state_at};
ghost use Rattle.ygg_replay.specs.Steps.{meant_at};
ghost use Rattle.ygg_eval.specs.Zeros.{zero_values};

use crate::site::ReplaySite;
use ygg_base::{Bits, DiskKind};
use ygg_eval::{Part, SpecLower, spec_lower, zeros};
use ygg_list::{NoMemory, Sequence};
use ygg_sched::{CaseKind, Schedule};
use ygg_syntax::lists;
use ygg_value::{Shape, Value, Values, same, zero};

/// How the runs of an obligation have ended: with an answer, if they give one, in a memory over a machine below, and on the side the test in
/// which the specification has no say.
#[derive(Drop)]
pub struct End {
    pub answer: Option<Value>,
    pub memory: Values,
    pub lower: SpecLower,
    pub side: bool,
}

/// Whether these values are the same.
fn same_values(a: &[Value], b: &[Value]) -> bool
    ensures { result ≡ same_list a.now b.now }
{
    if a.len() != b.len() {
        return false;
    }
    for (i, value) in a.iter().enumerate() {
        if !same(value, &b[i]) {
            return false;
        }
    }
    true
}

impl End {
    /// Whether memory and base are those of another end.
    fn is_state_of(&self, other: &End) -> bool
        ensures { result ≡ (same_list self.now.memory other.now.memory && same_list self.now.lower.values other.now.lower.values) }
    {
        same_values(self.memory.as_slice(), other.memory.as_slice())
            && same_values(
                self.lower.state().as_slice(),
                other.lower.state().as_slice(),
            )
    }
}

impl<'a> ReplaySite<'a> {
    /// What the layer is specified over, with these values. Its only error is out of memory.
    fn below(&self, low: &Values) -> Result<SpecLower, NoMemory>
        requires here { IsHere self.now }
        requires fits { LowFits self.now low.now }
        ensures values { IfOk result (λ machine. machine.values ≡ low.now) }
        ensures below { IfOk result (IsBelow self.now) }
    {
        spec_lower(self.alloc, self.typed, self.place, low.copy(self.alloc)?)
    }

    /// A table of the file's disk, of zeros. Its only error is out of memory.
    fn fresh_table(&self) -> Result<Value, NoMemory>
        ensures { IfOk result (λ table. table ≡ zero_of (shape_in (table_named (codes "view") self.now.typed.now.file.disk).shape)) }
    {
        let geometry = self.typed.geometry();
        let shape = Shape::Table {
            rows: geometry.rows,
            words: geometry.words,
            width: geometry.width,
        };
        zero(self.alloc, shape)
    }

    /// The tables of the file's disk, of zeros. Its only error is out of memory.
    fn fresh_tables(&self) -> Result<Values, NoMemory>
        ensures { IfOk result (λ low. low ≡ zero_values (tables_of self.now.typed.now.file.disk)) }
    {
        let mut tables = Values::new(self.alloc);
        tables.push(self.fresh_table()?)?;
        match self.typed.geometry().kind {
            DiskKind::Sync => Ok(tables),
            DiskKind::Async => {
                tables.push(self.fresh_table()?)?;
                Ok(tables)
            }
        }
    }

    /// The values that what the layer is specified over starts with. Its only error is out of memory.
    pub fn low_at_start(&self) -> Result<Values, NoMemory>
        requires { IsHere self.now }
        ensures starts { IfOk result (λ low. (machine_in self.now).Starts (based (low_at self.now low)) []) }
        ensures fits { IfOk result (LowFits self.now) }
    {
        if self.place == 0 {
            return self.fresh_tables();
        }
        let place = self.place - 1;
        let below = ReplaySite {
            alloc: self.alloc,
            typed: self.typed,
            place,
            layer: &lists::layer::as_slice(&self.typed.file().layers)[place as usize],
        };
        below.start()
    }

    /// Formats the layer on what it is specified over, as that starts. Its only error is out of memory.
    fn formatted(&self, schedule: &Schedule) -> Result<End, NoMemory>
        requires { IsHere self.now }
        ensures formatted { IfOk result (λ e. Formatted (closed_in self.now) (machine_in self.now) (meant_at self.now schedule.now) (end_at self.now e)) }
        ensures fits { IfOk result (EndFits self.now) }
    {
        let low = self.low_at_start()?;
        let mut lower = spec_lower(self.alloc, self.typed, self.place, low)?;
        let mut memory = zeros(self.alloc, lists::declared::as_slice(&self.layer.memory))?;
        let none = Sequence::new(self.alloc);
        let picks = &schedule.picks;
        let answer = self.run(Part::Format, 0, &none, &mut memory, &mut lower, picks)?;
        Ok(End {
            answer,
            memory,
            lower,
            side: true,
        })
    }

    /// Runs a block of the layer wholly from the schedule's first state. Its only error is out of memory.
    fn whole(
        &self,
        part: Part,
        number: u32,
        args: &Values,
        schedule: &Schedule,
    ) -> Result<End, NoMemory>
        requires here { IsHere self.now }
        requires kind { kind_of part ≡ kind.Impl }
        requires block { IsRunnable self.now.typed.now.file (record { layer = self.now.place; part = part; number = number }) args.now
            schedule.now.memory }
        requires low { LowFits self.now schedule.now.low }
        ensures ran { IfOk result (λ e. (b : Block) → block_in self.now.layer.now part number ≡ Some b → RanWhole (closed_in self.now) (machine_in self.now) b
            (seen_at self.now part number args.now) (meant_at self.now schedule.now) (end_at self.now e)) }
        ensures fits { IfOk result (EndFits self.now) }
    {
        let mut lower = self.below(&schedule.low)?;
        let mut memory = schedule.memory.copy(self.alloc)?;
        let picks = &schedule.picks;
        let answer = self.run(part, number, args, &mut memory, &mut lower, picks)?;
        Ok(End {
            answer,
            memory,
            lower,
            side: true,
        })
    }

    /// What power leaves below that fails in a block where the schedule says; `None` where the run does not come so far. Its only error is out
    /// of memory.
    fn cut_short(
        &self,
        part: Part,
        number: u32,
        args: &Values,
        memory: Values,
        schedule: &Schedule,
    ) -> Result<Option<SpecLower>, NoMemory>
        requires here { IsHere self.now }
        requires kind { kind_of part ≡ kind.Impl }
        requires block { IsRunnable self.now.typed.now.file (record { layer = self.now.place; part = part; number = number }) args.now memory }
        requires low { LowFits self.now schedule.now.low }
        ensures fell { IfOk result (λ found. (b : Block) → block_in self.now.layer.now part number ≡ Some b →
            FellOrNot (FellIn self.now schedule.now b (seen_at self.now part number args.now) memory) self.now found) }
        ensures below { IfOk result (λ found. IfSome found (IsBelow self.now)) }
    {
        let Some(stop) = schedule.stop else {
            return Ok(None);
        };
        let mut lower = self.below(&schedule.low)?;
        let picks = &schedule.picks;
        if self.cut(part, number, args, memory, &mut lower, stop, picks)? {
            Ok(Some(lower))
        } else {
            Ok(None)
        }
    }

    /// One whole recovery from a base. Its only error is out of memory.
    fn recovered(&self, mut lower: SpecLower, picks: &Bits, side: bool) -> Result<End, NoMemory>
        requires here { IsHere self.now }
        requires lower { IsBelow self.now lower }
        ensures ran { IfOk result (λ e. RanBy self.now self.now.layer.now.recover [] picks.now
            (state_at self.now (zero_values self.now.layer.now.memory) lower.values) e.answer (end_at self.now e).to) }
        ensures side { IfOk result (λ e. e.side ≡ side) }
        ensures fits { IfOk result (EndFits self.now) }
    {
        let mut memory = zeros(self.alloc, lists::declared::as_slice(&self.layer.memory))?;
        let none = Sequence::new(self.alloc);
        let answer = self.run(Part::Recover, 0, &none, &mut memory, &mut lower, picks)?;
        Ok(End {
            answer,
            memory,
            lower,
            side,
        })
    }

    /// A recovery from what power has left; on the side stands whether that is settled. Its only error is out of memory.
    fn after_fall(&self, fallen: SpecLower, schedule: &Schedule) -> Result<End, NoMemory>
        requires here { IsHere self.now }
        requires lower { IsBelow self.now fallen }
        ensures recovered { IfOk result (RecoveredFrom self.now schedule.now (low_at self.now fallen.values)) }
        ensures fits { IfOk result (EndFits self.now) }
    {
        let side = self.settled(fallen.state())?;
        self.recovered(fallen, &schedule.wake, side)
    }

    /// Power fails in a block where the schedule says, and a recovery follows; `None` where the run does not come so far. Its only error is out
    /// of memory.
    fn cut_and_recovered(
        &self,
        part: Part,
        number: u32,
        args: &Values,
        schedule: &Schedule,
    ) -> Result<Option<End>, NoMemory>
        requires here { IsHere self.now }
        requires kind { kind_of part ≡ kind.Impl }
        requires block { IsRunnable self.now.typed.now.file (record { layer = self.now.place; part = part; number = number }) args.now
            schedule.now.memory }
        requires low { LowFits self.now schedule.now.low }
        ensures { IfOk result (λ found. (b : Block) → block_in self.now.layer.now part number ≡ Some b → RecoveredOrNot
            (FellIn self.now schedule.now b (seen_at self.now part number args.now) schedule.now.memory) self.now schedule.now found) }
    {
        let memory = schedule.memory.copy(self.alloc)?;
        match self.cut_short(part, number, args, memory, schedule)? {
            Some(fallen) => Ok(Some(self.after_fall(fallen, schedule)?)),
            None => Ok(None),
        }
    }

    /// Power fails between operations, and a recovery follows. Its only error is out of memory.
    fn lost_and_recovered(&self, schedule: &Schedule) -> Result<End, NoMemory>
        requires here { IsHere self.now }
        requires low { LowFits self.now schedule.now.low }
        ensures recovered { IfOk result (FellAndRecovered (FallsSo (closed_in self.now) (machine_in self.now) Idle (meant_at self.now schedule.now)) self.now
            schedule.now) }
        ensures fits { IfOk result (EndFits self.now) }
    {
        let mut lower = self.below(&schedule.low)?;
        self.lose(&mut lower, &schedule.picks)?;
        self.after_fall(lower, schedule)
    }

    /// Power fails in a recovery where the schedule says, and another follows; on the side stands whether the base between is settled and the
    /// recovery ends where one whole recovery from the first base ends. `None` where the first does not come so far. Its only error is out of
    /// memory.
    fn recovered_twice(&self, schedule: &Schedule) -> Result<Option<End>, NoMemory>
        requires here { IsHere self.now }
        requires low { LowFits self.now schedule.now.low }
        ensures { IfOk result (ReachedOrNot self.now Again schedule.now) }
    {
        let memory = zeros(self.alloc, lists::declared::as_slice(&self.layer.memory))?;
        let none = Sequence::new(self.alloc);
        let Some(fallen) = self.cut_short(Part::Recover, 0, &none, memory, schedule)? else {
            return Ok(None);
        };
        let end = self.after_fall(fallen, schedule)?;
        let other = self.recovered(self.below(&schedule.low)?, &schedule.other, true)?;
        let side = end.side && end.is_state_of(&other);
        Ok(Some(End { side, ..end }))
    }

    /// How the runs that an obligation speaks of end with the schedule's picks; `None` where the stop is not reached. Its only error is out of
    /// memory.
    pub fn reached(
        &self,
        kind: CaseKind,
        number: u32,
        schedule: &Schedule,
    ) -> Result<Option<End>, NoMemory>
        requires here { IsHere self.now }
        requires fits { (o : Obligation) × (obligation_at self.now.layer.now kind number ≡ Some o)
            × IsTrue (schedule_fits self.now.typed.now.file self.now.place self.now.layer.now schedule.now o) }
        ensures { IfOk result (λ found. (o : Obligation) → obligation_at self.now.layer.now kind number ≡ Some o →
            ReachedOrNot self.now o schedule.now found) }
    {
        let none = Sequence::new(self.alloc);
        match kind {
            CaseKind::Init => Ok(Some(self.formatted(schedule)?)),
            CaseKind::Call => {
                let end = self.whole(Part::Impl, number, &schedule.args, schedule)?;
                Ok(Some(end))
            }
            CaseKind::Cut => self.cut_and_recovered(Part::Impl, number, &schedule.args, schedule),
            CaseKind::Tick => Ok(Some(self.whole(Part::Tick, number, &none, schedule)?)),
            CaseKind::CutTick => self.cut_and_recovered(Part::Tick, number, &none, schedule),
            CaseKind::Idle => Ok(Some(self.lost_and_recovered(schedule)?)),
            CaseKind::Again => self.recovered_twice(schedule),
        }
    }
}
