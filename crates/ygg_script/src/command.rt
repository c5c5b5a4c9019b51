use std::alloc::Global;
use ygg_base::{Bits, Duplicate, NoMemory, Sequence};
use ygg_value::Values;

/// A command of a script.
#[derive(Drop)]
pub enum Command {
    /// The operation at this place, from 0, of the topmost layer, with these arguments.
    Call {
        /// The operation's place.
        op: u32,
        /// The arguments.
        args: Values,
    },
    /// The background step at a place of a layer, both from 0, the bottom layer first.
    Tick {
        /// The layer's place.
        layer: u32,
        /// The background step's place in its layer.
        number: u32,
    },
    /// Power fails between calls, and the stack is woken.
    Lost,
    /// Power fails within the disk call of this number, counted from 0, or when so many disk calls are whole. The first of these after an
    /// operation or a background step stops that, each other one a waking.
    Fail {
        /// Whether it fails within a call.
        within: bool,
        /// The call's number, or how many calls are whole.
        call: u64,
    },
    /// The disk's picks from here on, in place of those that are left.
    Keep(Bits),
}

/// Commands in order: that of place k, counted from 0, stands on line k + 2 of the script's text.
pub type Script = Sequence<Command>;

impl Duplicate for Command {
    fn duplicate(&self, alloc: Global) -> Result<Command, NoMemory> {
        match self {
            Command::Call { op, args } => Ok(Command::Call {
                op: *op,
                args: args.copy(alloc)?,
            }),
            Command::Tick { layer, number } => Ok(Command::Tick {
                layer: *layer,
                number: *number,
            }),
            Command::Lost => Ok(Command::Lost),
            Command::Fail { within, call } => Ok(Command::Fail {
                within: *within,
                call: *call,
            }),
            Command::Keep(picks) => Ok(Command::Keep(picks.copy(alloc)?)),
        }
    }
}

impl Command {
    ghost use Rattle.std.specs.Prelude.{◌≡◌};
    ghost use Rattle.ygg_script.specs.Plain.{is_plain};
    ghost use Rattle.ygg_script.specs.Reading.{is_stoppable};

    /// Whether a line `fail` may follow.
    pub fn is_stoppable(&self) -> bool
        ensures { result ≡ is_stoppable self.now }
    {
        match self {
            Command::Call { .. } | Command::Tick { .. } | Command::Lost | Command::Fail { .. } => {
                true
            }
            Command::Keep(_) => false,
        }
    }

    /// Whether it is an operation or a background step.
    pub fn is_plain(&self) -> bool
        ensures { result ≡ is_plain self.now }
    {
        match self {
            Command::Call { .. } | Command::Tick { .. } => true,
            Command::Lost | Command::Fail { .. } | Command::Keep(_) => false,
        }
    }
}
