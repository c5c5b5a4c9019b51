//! The direct runs of a typed file.

ghost use Rattle.ygg_eval.specs.Files.{DirectInFile};

/// Each block of an implementation of a typed file runs and falls just so as its direct run, on what its layer is specified over.
pub fn direct_in_file()
    ensures { DirectInFile }
{}
