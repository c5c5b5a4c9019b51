ghost use Rattle.std.specs.Prelude.{◌≡◌, IfOk};

use crate::case::{Case, CaseKind};
use ygg_base::NoMemory;
use ygg_syntax::lists;
use ygg_syntax::tree::{Declared, DiskText, Layer, Operation, Tick};

/// An obligation of a layer, with its operation or background step.
#[derive(Clone, Copy)]
pub enum LayerClaim<'a> {
    /// Formatting gives a state that is related to the specification's start.
    Init,
    /// A whole operation does what its specification does.
    Call(&'a Operation),
    /// An operation that power cuts, and a recovery, leave what its specification may leave.
    Cut(&'a Operation),
    /// A whole background step changes nothing that the specification sees.
    Tick(&'a Tick),
    /// A background step that power cuts, and a recovery, leave what power loss alone may leave.
    CutTick(&'a Tick),
    /// Power loss between operations, and a recovery, leave what the specification's power loss may leave.
    Idle,
    /// A recovery that power cuts, and another, end where one whole recovery ends.
    Again,
}

/// The variables that `low` names.
#[derive(Clone, Copy)]
pub enum Low<'a> {
    /// The tables of the disk.
    Disk(DiskText),
    /// The variables of a layer's specification.
    Variables(&'a [Declared]),
}

/// An obligation of a file.
#[derive(Clone, Copy)]
pub struct Claim<'a> {
    /// Its layer.
    pub layer: &'a Layer,
    /// The layer's place in the file, from 0.
    pub place: usize,
    /// The variables that `low` names there.
    pub low: Low<'a>,
    /// The obligation.
    pub obligation: LayerClaim<'a>,
    /// The place of its operation or background step in the layer's list, from 0, else 0.
    pub number: usize,
}

/// A place in a list as a number of 32 digits. No machine has memory for a list that has more places.
fn place_of(place: usize) -> Result<u32, NoMemory>
    ensures { IfOk result (λ number. number ≡ place) }
{
    match u32::try_from(place) {
        Ok(number) => Ok(number),
        Err(_) => Err(NoMemory),
    }
}

impl<'a> LayerClaim<'a> {
    ghost use Rattle.std.specs.Prelude.{◌≡◌};
    ghost use Rattle.ygg_sched.specs.Cases.{kind_of};
    ghost use Rattle.ygg_sched.specs.Sites.{obligation_in, has_state, has_low, arguments_of, has_stop, has_wake, has_other};

    /// What it asks.
    pub fn kind(self) -> CaseKind
        ensures { result ≡ kind_of (obligation_in self.entry) }
    {
        match self {
            LayerClaim::Init => CaseKind::Init,
            LayerClaim::Call(_) => CaseKind::Call,
            LayerClaim::Cut(_) => CaseKind::Cut,
            LayerClaim::Tick(_) => CaseKind::Tick,
            LayerClaim::CutTick(_) => CaseKind::CutTick,
            LayerClaim::Idle => CaseKind::Idle,
            LayerClaim::Again => CaseKind::Again,
        }
    }

    /// Whether it speaks of the specification's variables and of the memory.
    pub fn has_state(self) -> bool
        ensures { result ≡ has_state (obligation_in self.entry) }
    {
        match self {
            LayerClaim::Init | LayerClaim::Again => false,
            LayerClaim::Call(_)
            | LayerClaim::Cut(_)
            | LayerClaim::Tick(_)
            | LayerClaim::CutTick(_)
            | LayerClaim::Idle => true,
        }
    }

    /// Whether it speaks of the base below.
    pub fn has_low(self) -> bool
        ensures { result ≡ has_low (obligation_in self.entry) }
    {
        match self {
            LayerClaim::Init => false,
            LayerClaim::Call(_)
            | LayerClaim::Cut(_)
            | LayerClaim::Tick(_)
            | LayerClaim::CutTick(_)
            | LayerClaim::Idle
            | LayerClaim::Again => true,
        }
    }

    /// The arguments that it speaks of: those of its operation.
    pub fn arguments(self) -> &'a [Declared]
        ensures { result.now ≡ arguments_of (obligation_in self.entry) }
    {
        match self {
            LayerClaim::Call(operation) | LayerClaim::Cut(operation) => {
                lists::declared::as_slice(&operation.arguments)
            }
            LayerClaim::Init
            | LayerClaim::Tick(_)
            | LayerClaim::CutTick(_)
            | LayerClaim::Idle
            | LayerClaim::Again => &[],
        }
    }

    /// Whether it speaks of a run that power cuts.
    pub fn has_stop(self) -> bool
        ensures { result ≡ has_stop (obligation_in self.entry) }
    {
        match self {
            LayerClaim::Cut(_) | LayerClaim::CutTick(_) | LayerClaim::Again => true,
            LayerClaim::Init | LayerClaim::Call(_) | LayerClaim::Tick(_) | LayerClaim::Idle => {
                false
            }
        }
    }

    /// Whether it speaks of a recovery after power was lost.
    pub fn has_wake(self) -> bool
        ensures { result ≡ has_wake (obligation_in self.entry) }
    {
        match self {
            LayerClaim::Cut(_) | LayerClaim::CutTick(_) | LayerClaim::Idle | LayerClaim::Again =>
                true,
            LayerClaim::Init | LayerClaim::Call(_) | LayerClaim::Tick(_) => false,
        }
    }

    /// Whether it speaks of a recovery from the first state besides.
    pub fn has_other(self) -> bool
        ensures { result ≡ has_other (obligation_in self.entry) }
    {
        match self {
            LayerClaim::Again => true,
            LayerClaim::Init
            | LayerClaim::Call(_)
            | LayerClaim::Cut(_)
            | LayerClaim::Tick(_)
            | LayerClaim::CutTick(_)
            | LayerClaim::Idle => false,
        }
    }
}

impl<'a> Claim<'a> {
    ghost use Rattle.std.specs.Prelude.{◌≡◌, IfOk};
    ghost use Rattle.ygg_sched.specs.Cases.{IsCaseOf, StandsAt};
    ghost use Rattle.ygg_sched.specs.Sites.{obligation_in, site_in, low_in, state_lines, memory_lines, low_lines, argument_lines};

    /// The obligation by its places. Its only error is out of memory: no machine has it for a list with more places than a `u32` has numbers.
    pub fn case(self) -> Result<Case, NoMemory>
        requires { StandsAt (self.layer.now).operations (self.layer.now).ticks (obligation_in self.obligation) self.number }
        ensures { IfOk result (IsCaseOf (site_in self.entry)) }
    {
        Ok(Case {
            layer: place_of(self.place)?,
            kind: self.obligation.kind(),
            number: place_of(self.number)?,
        })
    }

    /// The variables that have lines `state`.
    pub fn state(self) -> &'a [Declared]
        ensures { result.now ≡ state_lines (site_in self.entry) }
    {
        if self.obligation.has_state() {
            lists::declared::as_slice(&self.layer.state)
        } else {
            &[]
        }
    }

    /// Those that have lines `memory`.
    pub fn memory(self) -> &'a [Declared]
        ensures { result.now ≡ memory_lines (site_in self.entry) }
    {
        if self.obligation.has_state() {
            lists::declared::as_slice(&self.layer.memory)
        } else {
            &[]
        }
    }

    /// Those that have lines `low`.
    pub fn low(self) -> Low<'a>
        ensures { low_in result ≡ low_lines (site_in self.entry) }
    {
        if self.obligation.has_low() {
            self.low
        } else {
            Low::Variables(&[])
        }
    }

    /// The arguments, which have lines `arg`.
    pub fn arguments(self) -> &'a [Declared]
        ensures { result.now ≡ argument_lines (site_in self.entry) }
    {
        self.obligation.arguments()
    }
}
