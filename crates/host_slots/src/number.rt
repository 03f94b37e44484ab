// Decimal numbers.
ghost use Rattle.std.specs.Prelude.{◌≡◌, ◌≤◌, Option, Some, None, IfSome};
ghost use Rattle.host_slots.specs.Hosts.{is_digit, number_in};
ghost use Rattle.host_slots.specs.parts.Numbers.{number_behind, digit_behind};

// The number that a text spells; None where it spells no number from 1 to the limit, or has a zero in front.
#[tactic(auto, unfolding(crate::specs::Hosts::number_in))]
pub fn number_in(text: &[u8], most: u32) -> Option<u32>
    requires { most ≤ 65535 }
    ensures number { result ≡ number_in most text.now }
    ensures within { IfSome result (λ n. (1 ≤ n) × (n ≤ most)) }
{
    match text {
        [first, rest @ ..] if *first != b'0' => {
            let first = digit_behind(0, *first, most)?;
            number_behind(first, rest, most)
        }
        _ => None,
    }
}

// The number that digits spell behind those of n.
fn number_behind(n: u32, digits: &[u8], most: u32) -> Option<u32>
    requires n { n ≤ most }
    requires most { most ≤ 65535 }
    ensures number { result ≡ number_behind most n digits.now }
    ensures later { IfSome result (λ m. (n ≤ m) × (m ≤ most)) }
{
    let mut n = n;
    for b in digits {
        n = digit_behind(n, *b, most)?;
    }
    Some(n)
}

// A number with a digit more; None where that is no digit, or the number is above the limit.
fn digit_behind(n: u32, b: u8, most: u32) -> Option<u32>
    requires n { n ≤ most }
    requires most { most ≤ 65535 }
    ensures number { result ≡ digit_behind most n b }
    ensures later { IfSome result (λ m. (n ≤ m) × (m ≤ most)) }
{
    if !is_digit(b) {
        return None;
    }
    let more = n * 10 + (b - b'0') as u32;
    if more <= most { Some(more) } else { None }
}

pub fn is_digit(b: u8) -> bool
    ensures { result ≡ is_digit b }
{
    b'0' <= b && b <= b'9'
}
