ghost use Rattle.std.specs.Prelude.{◌≡◌, ◌≤◌, ◌-◌, ◌*◌, ℕ};
ghost use Rattle.ygg_syntax.specs.Budget.{limit};

/// Where counts stop. What is counted is taken away from this number, so that no sum grows past it.
pub const LIMIT: u64 = 1_000_000;

/// What is left of a budget after so many times what one time takes, where one time leaves `after_one`.
pub fn repeated(left: u64, count: u64, after_one: u64) -> u64
    requires within { left ≤ limit }
    requires less { after_one ≤ left }
    ensures { (one : ℕ) → after_one ≡ left - one → result ≡ left - count * one }
{
    left.saturating_sub(count.saturating_mul(left - after_one))
}
