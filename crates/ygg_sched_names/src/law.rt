//! Laws of the names of obligations and of the texts of schedules. A call does nothing; what it ensures holds.

ghost use Rattle.ygg_sched_names.specs.Laws.{AcceptedHasNames, NamedIs, NamesArePlain, NamesDiffer, PrintedShows, SiteNamedIs};

/// Each name of a file that a text is has the form of a name: a lower-case letter, then lower-case letters, digits and `_`, and no keyword.
pub fn accepted_has_names()
    ensures { AcceptedHasNames }
{}

/// No two obligations of such a file have one name.
pub fn names_differ()
    ensures { NamesDiffer }
{}

/// The first obligation that has an obligation's name is that obligation.
pub fn named_is()
    ensures { NamedIs }
{}

/// So it is of obligations by their sites.
pub fn site_named_is()
    ensures { SiteNamedIs }
{}

/// All names in the lines of a schedule of such a file are words without a line feed.
pub fn names_are_plain()
    ensures { NamesArePlain }
{}

/// The text of a schedule that fits its obligation and violates it ends, replayed, as refuted, and shows the obligation's name.
pub fn printed_shows()
    ensures { PrintedShows }
{}
