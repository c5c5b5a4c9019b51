ghost use Rattle.std.specs.Prelude.{◌≡◌, ◌<◌, ◌^◌, IfSome};

use crate::entry::Entry;
use std::marker::Model;
use ygg_cnf::Lit;
use ygg_cnf_set::code;

/// An entry in 12 bytes.
#[derive(Clone, Copy)]
pub struct PackedEntry {
    // the literal's code
    code: u32,
    level: u32,
    // the number of the clause, or 0 where there is no reason
    reason: u32,
}

impl Model for PackedEntry {
    ghost use Rattle.ygg_watch.specs.declared.entry.Entry.{Entry};
    ghost use Rattle.ygg_cnf_set.specs.LiteralSet.{code_of};
    ghost use Rattle.ygg_cnf_set.specs.Codes.{lit_at};
    ghost use Rattle.ygg_watch.specs.Reasons.{reason_at, number_of};

    ghost Value = { Entry };

    ghost view = { λ p. record { lit = lit_at p.code; level = p.level; reason = reason_at p.reason } };

    ghost inverse = { λ e. record { code = code_of e.lit; level = e.level; reason = number_of e.reason } };
}

impl PackedEntry {
    /// The entry, in 12 bytes.
    pub fn of(entry: Entry) -> PackedEntry
        requires lit { entry.lit.var < 2 ^ 31 }
        requires level { entry.level < 2 ^ 32 }
        requires reason { IfSome entry.reason (λ id. (0 < id) × (id < 2 ^ 32)) }
        ensures { result ≡ entry }
    {
        PackedEntry {
            code: code(entry.lit) as u32,
            level: entry.level as u32,
            reason: match entry.reason {
                Some(id) => id as u32,
                None => 0,
            },
        }
    }

    /// The entry itself.
    pub fn entry(self) -> Entry
        ensures { result ≡ self }
    {
        Entry {
            lit: Lit {
                var: (self.code / 2) as u64,
                negated: self.code % 2 == 1,
            },
            level: self.level as u64,
            reason: if self.reason == 0 {
                None
            } else {
                Some(self.reason as u64)
            },
        }
    }
}
