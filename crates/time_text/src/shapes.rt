//! Texts by their shape, and the numbers that digits spell.
ghost use Rattle.std.specs.Prelude.{◌≡◌, ◌+◌, ◌-◌, ◌^◌, ◌<◌, ◌≤◌, IsTrue, length, slice_range};
ghost use Rattle.std.specs.Str.{all_ascii_digits};
ghost use Rattle.std.specs.Str.Parse.{digits_value};
ghost use Rattle.time_text.specs.Shape as Shape;

fn fits(sign: u8, byte: u8) -> bool
    ensures { result ≡ Shape.fits sign byte }
{
    if sign == b'#' {
        byte.is_ascii_digit()
    } else {
        byte == sign
    }
}

/// Whether the text has this shape, in which a `#` stands for a decimal digit and any other byte for itself.
pub fn has_shape(shape: &[u8], text: &[u8]) -> bool
    ensures { result ≡ Shape.has_shape shape.now text.now }
{
    if shape.len() != text.len() {
        return false;
    }
    for (place, sign) in shape.iter().enumerate() {
        if !fits(*sign, text[place]) {
            return false;
        }
    }
    true
}

/// Whether each byte is a decimal digit.
pub fn are_digits(text: &[u8]) -> bool
    ensures { result ≡ all_ascii_digits text.now }
{
    for byte in text {
        if !byte.is_ascii_digit() {
            return false;
        }
    }
    true
}

/// The number that the digits from one place up to another spell. They are at most 15.
pub fn number(text: &[u8], start: usize, stop: usize) -> u64
    requires ordered { start ≤ stop }
    requires within { stop ≤ length text.now }
    requires few { stop ≤ start + 15 }
    requires digits { IsTrue (all_ascii_digits (slice_range text.now start stop)) }
    ensures value { result ≡ Shape.number text.now start stop }
    ensures small { result < 10 ^ (stop - start) }
{
    whole_number(&text[start..stop])
}

/// The number that at most 15 decimal digits spell.
pub fn whole_number(digits: &[u8]) -> u64
    requires spelled { IsTrue (all_ascii_digits digits.now) }
    requires few { length digits.now ≤ 15 }
    ensures value { result ≡ digits_value 10 digits.now }
    ensures small { result < 10 ^ length digits.now }
    ensures bound { result < 10 ^ 15 }
{
    let mut number = 0;
    for digit in digits {
        number = number * 10 + u64::from(*digit - b'0');
    }
    number
}
