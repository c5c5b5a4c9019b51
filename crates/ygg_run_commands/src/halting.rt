use ygg_list::NoMemory;

/// Why a run is given up.
#[derive(Clone, Copy, Drop)]
pub enum RunHalted {
    /// What lies below the layers failed.
    DeviceFailed,
    /// The sink failed.
    SinkFailed,
    /// No memory was left.
    Memory,
}

impl From<NoMemory> for RunHalted {
    ghost use Rattle.std.specs.Prelude.{◌≡◌};
    ghost use Rattle.ygg_run_commands.specs.declared.halting.RunHalted.TheVariants as halted;

    ghost from_gives = { λ error made. made ≡ halted.Memory };

    fn from(_error: NoMemory) -> RunHalted {
        RunHalted::Memory
    }
}
