//! The numbers of inputs.

ghost use Rattle.std.specs.Prelude.{◌≡◌, map};
ghost use Rattle.ygg_oblige_given.specs.Ones.{is_one};

/// The numbers that an environment gives to inputs, each at the place of its input. An input past the end has 0.
#[derive(Drop)]
pub struct InputTable {
    /// The numbers.
    pub numbers: Vec<u64>,
    /// Whether each of them is 1.
    pub bits: Vec<bool>,
    ghost bits_are: { bits.items ≡ map is_one numbers.items },
}
