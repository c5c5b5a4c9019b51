//! The numbers of a text.

ghost use Rattle.std.specs.Prelude.{◌≡◌, ◌≤◌, length, IfSome, true};
ghost use Rattle.std.specs.List.{list_all};
ghost use Rattle.ygg_base.specs.Lexing.{is_digit, value_after};
ghost use Rattle.ygg_dimacs.specs.Numbers.{are_digits, number_in, literal_in};

use ygg_cnf::Lit;

/// Whether all bytes are decimal digits.
fn all_digits(bytes: &[u8]) -> bool
    ensures { result ≡ list_all is_digit bytes.now }
{
    bytes.iter().all(|byte| byte.is_ascii_digit())
}

/// Whether they are 1 to 10 decimal digits.
#[tactic(auto, using(crate::proofs::Digits::none_digits, crate::proofs::Digits::many_digits, crate::proofs::Digits::few_digits))]
fn are_digits(bytes: &[u8]) -> bool
    ensures { result ≡ are_digits bytes.now }
{
    if bytes.len() == 0 || bytes.len() > 10 {
        return false;
    }
    all_digits(bytes)
}

/// The number that at most 10 decimal digits give.
fn value(digits: &[u8]) -> u64
    requires few { length digits.now ≤ 10 }
    requires digits { list_all is_digit digits.now ≡ true }
    ensures { result ≡ value_after 0 digits.now }
{
    let mut number: u64 = 0;
    for digit in digits {
        number = 10 * number + u64::from(digit.saturating_sub(b'0'));
    }
    number
}

/// The number that 1 to 10 decimal digits give, where it isn't greater than this.
pub fn number_in(bytes: &[u8], greatest: u64) -> Option<u64>
    ensures is { result ≡ number_in greatest bytes.now }
    ensures within { IfSome result (λ number. number ≤ greatest) }
{
    if !are_digits(bytes) {
        return None;
    }
    let number = value(bytes);
    if number <= greatest {
        Some(number)
    } else {
        None
    }
}

/// The literal of a variable up to this one that a word is: its number, with `-` before it where it is negated. That of variable 0 ends a clause.
pub fn literal_in(bytes: &[u8], variables: u64) -> Option<Lit>
    ensures is { result ≡ literal_in variables bytes.now }
    ensures within { IfSome result (λ x. x.var ≤ variables) }
{
    match bytes {
        [b'-', digits @ ..] => {
            let var = number_in(digits, variables)?;
            Some(Lit { var, negated: true })
        }
        _ => {
            let var = number_in(bytes, variables)?;
            Some(Lit {
                var,
                negated: false,
            })
        }
    }
}
