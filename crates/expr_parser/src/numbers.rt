ghost use Rattle.std.specs.Prelude.{◌≡◌, ◌≤◌, ◌^◌, true, cond, nat_le, pos, neg_ℤ, Some, None, option_map};
ghost use Rattle.std.specs.List.{list_all};
ghost use Rattle.std.specs.Str.Parse.{digits_value};
ghost use Rattle.edge_base.specs.Token.{is_digit, is_counting, size_of, number_of, bits_of};

use crate::spellings::is;

fn are_digits(text: &[u8]) -> bool
    ensures { result ≡ list_all is_digit text.now }
{
    text.iter().all(|&byte| b'0' <= byte && byte <= b'9')
}

/// Digits of which the first is not `0`.
fn is_counting(text: &[u8]) -> bool
    ensures { result ≡ is_counting text.now }
{
    match text.split_first() {
        None => false,
        Some((&first, rest)) => b'1' <= first && first <= b'9' && are_digits(rest),
    }
}

/// The number that digits write, where it is at most `most`.
fn value_up_to(digits: &[u8], most: u64) -> Option<u64>
    requires digits { list_all is_digit digits.now ≡ true }
    requires few { most ≤ 2 ^ 63 }
    ensures { result ≡ cond (nat_le (digits_value 10 digits.now) most) (Some (digits_value 10 digits.now)) None }
{
    let mut value: u64 = 0;
    for &digit in digits {
        let longer = u128::from(value) * 10 + u128::from(digit - b'0');
        if u128::from(most) < longer {
            return None;
        }
        value = longer as u64;
    }
    Some(value)
}

/// The number that digits write, where the first is not `0` and it is at most `most`.
fn size_of(digits: &[u8], most: u64) -> Option<u64>
    requires { most ≤ 2 ^ 63 }
    ensures { result ≡ size_of most digits.now }
{
    if !is_counting(digits) {
        return None;
    }
    value_up_to(digits, most)
}

/// A number of this size below zero.
fn negative(size: u64) -> i64
    requires { size ≤ 2 ^ 63 }
    ensures { result ≡ neg_ℤ (pos size) }
{
    if size == 1 << 63 {
        i64::MIN
    } else {
        -(size as i64)
    }
}

/// The number that a text writes in decimal, within i64.
pub fn number_of(text: &[u8]) -> Option<i64>
    ensures { result ≡ number_of text.now }
{
    let (&first, rest) = text.split_first()?;
    if is(text, "0") {
        return Some(0);
    }
    if first == b'-' {
        let size = size_of(rest, 1 << 63)?;
        return Some(negative(size));
    }
    let size = size_of(text, i64::MAX as u64)?;
    Some(size as i64)
}

/// The bits of a block.
pub fn bits_of(text: &[u8]) -> Option<u16>
    ensures { result ≡ bits_of text.now }
{
    if is(text, "0") {
        return Some(0);
    }
    let bits = size_of(text, 999)?;
    Some(bits as u16)
}
