//! Fields of fixed width in hexadecimal digits.
ghost use Rattle.std.specs.Prelude.{◌≡◌, ◌<◌, ◌≤◌, ◌^◌, ◌%◌, length, take, drop, ◌++◌, ◌∷◌, [], ◌+◌, option_map, IfSome};
ghost use Rattle.sq_base.specs.Fields.{field, digit, digit_value, number_after, field_at, dash_at, part_at};

fn digit(n: u64) -> u8
    requires { n < 16 }
    ensures { result ≡ digit n }
{
    if n < 10 {
        b'0' + n as u8
    } else {
        b'a' + (n as u8 - 10)
    }
}

/// Fills the bytes with the digits of a number, zeros before them.
pub fn put_field(out: &mut [u8], number: u64)
    ensures { out.new ≡ field (length out.old) number }
{
    let mut rest = number;
    let mut left = out.len();
    while left > 0 {
        left -= 1;
        out[left] = digit(rest % 16);
        rest = rest / 16;
    }
}

/// Writes the digits of a number at an index.
pub fn put_at(out: &mut [u8], at: usize, width: usize, number: u64)
    requires { at + width ≤ length out.old }
    ensures written { take (at + width) out.new ≡ take at out.old ++ field width number }
    ensures rest { drop (at + width) out.new ≡ drop (at + width) out.old }
{
    put_field(&mut out[at..at + width], number);
}

/// Writes a `-` at an index.
pub fn put_dash(out: &mut [u8], at: usize)
    requires { at < length out.old }
    ensures written { take (at + 1) out.new ≡ take at out.old ++ 45 ∷ [] }
    ensures rest { drop (at + 1) out.new ≡ drop (at + 1) out.old }
{
    out[at] = b'-';
}

fn value_of(b: u8) -> Option<u64>
    ensures value { result ≡ digit_value b }
    ensures bound { IfSome result (λ d. d < 16) }
{
    match b {
        b'0'..=b'9' => Some((b - b'0') as u64),
        b'a'..=b'f' => Some((b - b'a') as u64 + 10),
        _ => None,
    }
}

fn number_of(digits: &[u8]) -> Option<u64>
    requires { length digits.now ≤ 16 }
    ensures value { result ≡ number_after 0 digits.now }
    ensures bound { IfSome result (λ n. n < 16 ^ length digits.now) }
{
    let mut number = 0;
    for b in digits {
        let value = value_of(*b)?;
        number = number * 16 + value;
    }
    Some(number)
}

/// The number in so many digits, and what follows them.
#[tactic(auto, unfolding(crate::specs::Fields::field_at))]
pub fn take_field(bytes: &[u8], width: usize) -> Option<(u64, &[u8])>
    requires { width ≤ 16 }
    ensures value { option_map (λ x. (x.0, x.1.now)) result ≡ field_at width bytes.now }
    ensures bound { IfSome result (λ x. x.0 < 16 ^ width) }
{
    if bytes.len() < width {
        return None;
    }
    let (front, rest) = bytes.split_at(width);
    let number = number_of(front)?;
    Some((number, rest))
}

/// What follows a `-`.
pub fn take_dash(bytes: &[u8]) -> Option<&[u8]>
    ensures { option_map (λ x. x.now) result ≡ dash_at bytes.now }
{
    match bytes {
        [b'-', rest @ ..] => Some(rest),
        _ => None,
    }
}

/// The number in so many digits with a `-` after them, and what follows.
#[tactic(auto, unfolding(crate::specs::Fields::part_at))]
pub fn take_part(bytes: &[u8], width: usize) -> Option<(u64, &[u8])>
    requires { width ≤ 16 }
    ensures value { option_map (λ x. (x.0, x.1.now)) result ≡ part_at width bytes.now }
    ensures bound { IfSome result (λ x. x.0 < 16 ^ width) }
{
    let (number, rest) = take_field(bytes, width)?;
    let rest = take_dash(rest)?;
    Some((number, rest))
}
