//! What blocks ask for, and that it is answered.

ghost use Rattle.ygg_meaning_laws.specs.Blocks.{BlocksAreSound};
ghost use Rattle.ygg_meaning_laws.specs.ProgressLaws.{KindsAreKept, SpecificationsAnswer, DisksAnswer, TypedFilesAreAnswered, TypedCompose, TypedHistories};

/// A typed block that is given answers that fit asks only for what it may ask for. Where it ends, each name is there with a
/// value of its shape, and the answer has its own.
pub fn blocks_are_sound()
    ensures { BlocksAreSound }
{}

/// In a file in the grammar only blocks of a specification choose, and only blocks of an implementation call the machine below.
pub fn kinds_are_kept()
    ensures { KindsAreKept }
{}

/// The specification of each layer of a typed file answers whatever it is asked, and keeps the shapes of its variables.
pub fn specifications_answer()
    ensures { SpecificationsAnswer }
{}

/// A disk without type errors answers each of its operations, and keeps the size of its tables.
pub fn disks_answer()
    ensures { DisksAnswer }
{}

/// Each call that a recovery of a typed file makes is answered.
pub fn typed_files_are_answered()
    ensures { TypedFilesAreAnswered }
{}

/// Where the lower layers of a typed file each refine their specifications, they refine together the topmost of these specifications.
pub fn typed_compose()
    ensures { TypedCompose }
{}

/// Where each layer of a typed file refines its specification, the topmost specification allows every history of the layers on
/// one another.
pub fn typed_histories()
    ensures { TypedHistories }
{}
