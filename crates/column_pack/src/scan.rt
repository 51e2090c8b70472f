//! What is known of some numbers: the least and the greatest, their sum, their greatest common divisor.

ghost use Rattle.std.specs.Prelude.{◌≡◌, ◌↔◌, ℕ, ◌+◌, ◌-◌, ◌*◌, ◌^◌, ◌<◌, ◌≤◌, length, map, sum, All, Contains, IsTrue};
ghost use Rattle.column_pack.specs.Block.{rises, falls, rises_after, falls_after};
ghost use Rattle.column_pack.specs.Digits.{greatest_of, IsWidth};
ghost use Rattle.column_pack.specs.Factor.{IsDivisor, IsGcdOf};

pub fn least(numbers: &[u64]) -> u64
    requires { 0 < length numbers.now }
    ensures below { All (λ x. result ≤ x) numbers.now }
    ensures among { Contains numbers.now result }
{
    let mut least = numbers[0];
    for number in numbers {
        if *number < least {
            least = *number;
        }
    }
    least
}

pub fn greatest(numbers: &[u64]) -> u64
    ensures { result ≡ greatest_of numbers.now }
{
    let mut most = 0;
    for number in numbers {
        if most < *number {
            most = *number;
        }
    }
    most
}

pub fn total(numbers: &[u64]) -> u128
    requires { length numbers.now ≤ 128 }
    ensures { result ≡ sum numbers.now }
{
    let mut total: u128 = 0;
    for number in numbers {
        total += *number as u128;
    }
    total
}

pub fn has_zero(numbers: &[u64]) -> bool
    ensures { IsTrue result ↔ Contains numbers.now 0 }
{
    for number in numbers {
        if *number == 0 {
            return true;
        }
    }
    false
}

/// Whether some number is greater than the one before, and some is less.
pub fn turns(numbers: &[u64]) -> (bool, bool)
    ensures rises { result.0 ≡ rises numbers.now }
    ensures falls { result.1 ≡ falls numbers.now }
{
    match numbers {
        [] => (false, false),
        [first, rest @ ..] => turns_after(*first, rest),
    }
}

fn turns_after(first: u64, numbers: &[u64]) -> (bool, bool)
    ensures rises { result.0 ≡ rises_after first numbers.now }
    ensures falls { result.1 ≡ falls_after first numbers.now }
{
    let mut before = first;
    let mut rises = false;
    let mut falls = false;
    for number in numbers {
        rises |= before < *number;
        falls |= *number < before;
        before = *number;
    }
    (rises, falls)
}

fn gcd(a: u64, b: u64) -> u64
    ensures { IsGcdOf a b result }
{
    let mut x = a;
    let mut y = b;
    while y != 0 {
        let rest = x % y;
        x = y;
        y = rest;
    }
    x
}

/// The greatest common divisor, 0 where all are 0.
pub fn common_divisor(numbers: &[u64]) -> u64
    ensures { IsDivisor result numbers.now }
{
    let mut divisor = 0;
    for number in numbers {
        if divisor == 1 {
            return 1;
        }
        divisor = gcd(*number, divisor);
    }
    divisor
}

/// How many binary digits a number has, none for 0.
pub fn width_of(number: u64) -> u32
    ensures width { IsWidth result number }
    ensures at_most { result ≤ 64 }
{
    64 - number.leading_zeros()
}
