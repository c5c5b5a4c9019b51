//! Laws of schedules and their texts. A call does nothing; what it ensures holds.

ghost use Rattle.ygg_sched.specs.Laws.{PrintedIsRead, ReadFits, SitesAreClaims};

/// The text of a schedule is read as the same schedule.
pub fn printed_is_read()
    ensures { PrintedIsRead }
{}

/// What is read is a schedule of the file: it names one of its obligations, and has a value of its type for each variable that has a line.
pub fn read_fits()
    ensures { ReadFits }
{}

/// The obligations that a schedule may name are those of the file.
pub fn sites_are_claims()
    ensures { SitesAreClaims }
{}
