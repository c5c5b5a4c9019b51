//! The schedule that an environment names violates the obligation exactly where its term is 0 in the environment.

ghost use Rattle.ygg_oblige_laws.specs.ScheduleLaws.{FileSchedules, LayerSchedules};

/// In every bank that begins with the terms of a typed layer's obligations, the schedule that an environment names for an obligation violates it exactly where
/// its term is 0 in the environment: its values are those of the environment, of the declared shapes, and its picks those that the runs take, from the front.
pub fn layer_schedules()
    ensures { LayerSchedules }
{}

/// So it is for the obligations of a typed file, in the bank that their terms make.
pub fn file_schedules()
    ensures { FileSchedules }
{}
