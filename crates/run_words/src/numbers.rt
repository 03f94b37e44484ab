// Decimal numbers.
ghost use Rattle.std.specs.Prelude.{◌≡◌, ◌≤◌, ◌&&◌, ◌||◌, ◌==◌, if◌then◌else◌, length, nat_le, nat_lt, slice_index, Some, None, IfSome};
ghost use Rattle.std.specs.List.{list_all};
ghost use Rattle.std.specs.Char.{is_ascii_digit};
ghost use Rattle.base_types.specs.Ascii as ascii;
ghost use Rattle.run_words.specs.Asked.{is_decimal, number_between};

// The number that a word says, within these limits.
pub fn number_in(word: &str, least: u32, most: u32) -> Option<u32>
    ensures number { result ≡ number_between least most word.now }
    ensures within { IfSome result (λ n. (least ≤ n) × (n ≤ most)) }
{
    if !is_number(word.as_bytes()) {
        return None;
    }
    match word.parse::<u32>() {
        Ok(number) => within(number, least, most),
        Err(_) => None,
    }
}

fn within(number: u32, least: u32, most: u32) -> Option<u32>
    ensures number { result ≡ (if nat_le least number && nat_le number most then Some number else None) }
    ensures within { IfSome result (λ n. (least ≤ n) × (n ≤ most)) }
{
    if least <= number && number <= most {
        Some(number)
    } else {
        None
    }
}

// Decimal digits without a sign, and without a zero in front of others.
fn is_number(word: &[u8]) -> bool
    ensures { result ≡ is_decimal word.now }
{
    !word.is_empty() && (has_digits(word) && has_first_digit(word))
}

fn has_digits(word: &[u8]) -> bool
    ensures { result ≡ list_all is_ascii_digit word.now }
{
    word.iter().all(|b| b.is_ascii_digit())
}

// One digit, or a first one that is no zero.
fn has_first_digit(word: &[u8]) -> bool
    ensures { result ≡ ((length word.now == 1) || nat_lt ascii.zero_digit (slice_index word.now 0)) }
{
    match word {
        [] => false,
        [_] => true,
        [first, ..] => b'0' < *first,
    }
}
