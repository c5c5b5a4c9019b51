//! Schedules as texts: a value for everything that an obligation of a layer file speaks of, printed and read again by lines.
//!
//! ```text
//! ygg-schedule 1
//! obligation pair.cut.put
//! state x 00
//! state y 00
//! low view 00;00;00;00;00
//! low stable 00;00;00;00;00
//! arg a 01
//! arg b 02
//! stop before 3
//! picks 011
//! wake 111
//! end
//! ```
#![tactic(auto)]

mod bits;
mod case;
mod claim;
mod decimal;
mod flaw;
mod law;
mod lines;
mod naming;
mod number;
mod printing;
mod reading;
mod rest;
mod schedule;
mod value_reading;
mod value_writing;
mod words;

pub use bits::bits_in;
pub use case::{Case, CaseKind};
pub use claim::{Claim, LayerClaim, Low};
pub use decimal::decimal_in;
pub use flaw::ScheduleFlaw;
pub use law::{printed_is_read, read_fits, sites_are_claims};
pub use naming::{case_named, claim_named};
pub use printing::print_schedule;
pub use reading::read_schedule;
pub use rest::Rest;
pub use schedule::{Halt, Run, Schedule};
pub use value_reading::value_in;
pub use value_writing::put_value;
pub use words::{after_front, cut};
pub use ygg_meaning::history_law::left_goes_on;
pub use ygg_meaning::{Did, Event, Events, Fuse, Picks, Power, Turn};
pub use ygg_report::{holds_with, hypothesis, put, refused, shows};
pub use ygg_type::{Typed, choices};
