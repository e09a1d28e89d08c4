ghost use Rattle.std.specs.Prelude.{◌≡◌, ◌*◌, ◌%◌, ◌^◌, ◌≤◌, ◌<◌, MatchOption};
ghost use Rattle.std.specs.Int.{IsGcd, trailing_zeros, w64};
ghost use Rattle.yds_model.specs.Divisor.{common_divisor, common_multiple};

/// The greatest common divisor, by halves and differences, without a division, in a number of steps that grows with the
/// numbers' lengths. That of 0 and 0 is 0.
pub fn gcd(a: u64, b: u64) -> u64
    ensures value { result ≡ common_divisor a b }
    ensures greatest { IsGcd a b result }
{
    if a == 0 {
        return b;
    }
    if b == 0 {
        return a;
    }
    odd_gcd(odd_part(a), odd_part(b)) << a.trailing_zeros().min(b.trailing_zeros())
}

/// What is left of the number when it is halved as often as it is even.
fn odd_part(number: u64) -> u64
    requires { 1 ≤ number }
    ensures odd { result % 2 ≡ 1 }
    ensures parts { 2 ^ trailing_zeros w64 number * result ≡ number }
{
    number >> number.trailing_zeros()
}

/// The greatest common divisor of two odd numbers.
fn odd_gcd(a: u64, b: u64) -> u64
    requires first { a % 2 ≡ 1 }
    requires second { b % 2 ≡ 1 }
    ensures { IsGcd a b result }
{
    let (mut x, mut y) = (a, b);
    while x != y {
        let difference = x.abs_diff(y);
        x = x.min(y);
        y = odd_part(difference);
    }
    x
}

/// The least common multiple of two numbers of at least 1, or None where it is above the limit.
pub fn lcm_within(a: u64, b: u64, limit: u64) -> Option<u64>
    requires first { 1 ≤ a }
    requires second { 1 ≤ b }
    ensures { MatchOption result (limit < common_multiple a b) (λ multiple. (multiple ≡ common_multiple a b) × (multiple ≤ limit)) }
{
    let multiple = u128::from(a / gcd(a, b)) * u128::from(b);
    if multiple <= u128::from(limit) {
        Some(multiple as u64)
    } else {
        None
    }
}
