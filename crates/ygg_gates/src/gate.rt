//! Gates, and what is joined of them.

use std::alloc::Global;
use std::marker::Model;
use ygg_cnf::Lit;
use ygg_list::{Duplicate, NoMemory};

/// What gives a variable its value. The k-th gate of a list, counted from 0, is that of the variable k + 2.
#[derive(Clone, Copy)]
pub enum Gate {
    /// Nothing: either value will do.
    Free,
    /// True where both are.
    And { a: Lit, b: Lit },
    /// True where just one of the two is.
    Xor { a: Lit, b: Lit },
    /// What `yes` is where `test` is true, and else what `no` is.
    Mux { test: Lit, yes: Lit, no: Lit },
}

/// What joins two bits to one.
#[derive(Clone, Copy)]
pub enum Joint {
    /// True where both are.
    And,
    /// True where one of them is.
    Or,
    /// True where just one of them is.
    Xor,
    /// The first where `test` is true, and else the second.
    Pick { test: Lit },
}

/// Where bits are moved.
#[derive(Clone, Copy)]
pub enum Way {
    /// Towards the high bits.
    Up,
    /// Towards the low bits.
    Down,
}

/// A bit of a sum, and the carry to the next bit.
#[derive(Clone, Copy)]
pub struct Carried {
    pub bit: Lit,
    pub carry: Lit,
}

/// The variables of an input: as many as it has bits, counted on from the first, which is the lowest bit's.
#[derive(Clone, Copy)]
pub struct InputVariables {
    /// The input's number.
    pub number: u64,
    /// How many bits it has.
    pub width: u8,
    /// Its first variable.
    pub first: u64,
}

impl Model for InputVariables {
    ghost use Rattle.ygg_gates.specs.Sources.{IsSource, Variables};

    ghost Value = { Variables };

    ghost view = { λ s. record { number = s.number; width = s.width; first = s.first } };

    ghost invariant = { λ s. IsSource (record { number = s.number; width = s.width; first = s.first }) };

    ghost inverse = { λ v. record { number = v.number; width = v.width; first = v.first } };
}

impl Duplicate for InputVariables {
    fn duplicate(&self, _alloc: Global) -> Result<InputVariables, NoMemory> {
        Ok(*self)
    }
}
