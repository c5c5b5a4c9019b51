//! What runs over terms are worth. The laws on values speak of runs whose nodes at the end are a bank, as the code makes them.

ghost use Rattle.ygg_sym_runs.specs.Laws.{FallsOnDisk, InputsOnDisk, InputsOnSpec, RunsOnDisk, RunsOnSpec};

/// In every environment a run over terms of a typed block on a disk is worth a run of the block on the disk with the picks that the environment names.
pub fn runs_on_disk()
    ensures { RunsOnDisk }
{}

/// In every environment a run over terms of a typed block on a disk that power cuts comes to a stop just where the run that the environment names
/// passes a stop that is set, and is worth what is left there.
pub fn falls_on_disk()
    ensures { FallsOnDisk }
{}

/// In every environment a run over terms of a typed block on the specification of a layer is worth a run of the block on it.
pub fn runs_on_spec()
    ensures { RunsOnSpec }
{}

/// A run over terms on a disk makes the inputs of its places alone.
pub fn inputs_on_disk()
    ensures { InputsOnDisk }
{}

/// A run over terms on the specification of a layer makes the inputs of its places alone.
pub fn inputs_on_spec()
    ensures { InputsOnSpec }
{}
