//! What numbers in a file may be.

ghost use Rattle.std.specs.Prelude.{◌≡◌};
ghost use Rattle.ygg_type_rules.specs.Limits.{width_fits, value_fits, words_fit, rows_fit, words_fit_in, bound_fits, weight_fits, picks_fit};

/// Whether it is a width.
pub fn is_width(w: u64) -> bool
    ensures { result ≡ width_fits w }
{
    1 <= w && w <= 64
}

/// Whether it is a value of the width.
#[tactic(auto, using(crate::proofs::Powers::below_power))]
pub fn is_value(v: u64, w: u64) -> bool
    ensures { result ≡ value_fits v w }
{
    w >= 64 || v < 1 << w
}

/// Whether a row may have so many words.
pub fn is_word_count(m: u64) -> bool
    ensures { result ≡ words_fit m }
{
    1 <= m && m <= 64
}

/// Whether a table may have so many rows.
pub fn is_row_count(n: u64) -> bool
    ensures { result ≡ rows_fit n }
{
    1 <= n && n <= 256
}

/// Whether a table with so many rows may have rows of so many words.
pub fn is_word_count_in(n: u64, m: u64) -> bool
    ensures { result ≡ words_fit_in n m }
{
    is_word_count(m) && n <= 4096 && n * m <= 4096
}

/// Whether it is the bound of a loop over numbers of the width.
#[tactic(auto, using(crate::proofs::Powers::at_most_power))]
pub fn is_bound(n: u64, w: u64) -> bool
    ensures { result ≡ bound_fits n w }
{
    1 <= n && n <= 4096 && (w >= 12 || n <= 1 << w)
}

/// Whether a block or an expression may have this weight.
pub fn is_weight(weight: u64) -> bool
    ensures { result ≡ weight_fits weight }
{
    weight <= 65_536
}

/// Whether an operation may take so many picks.
pub fn are_picks(picks: u64) -> bool
    ensures { result ≡ picks_fit picks }
{
    picks <= 8
}
