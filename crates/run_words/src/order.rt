// The order of the clients' first steps.
ghost use Rattle.std.specs.Prelude.{◌≡◌, ◌==◌, length, IfOk};
ghost use Rattle.std.specs.List.{slice_split};
ghost use Rattle.std.specs.Option.{option_map};
ghost use Rattle.base_types.specs.Ascii as ascii;
ghost use Rattle.run_words.specs.Asked.{numbers_in, order_in};

use crate::numbers::number_in;
use base_types::limits::{CLIENT_LIMIT, ORDER_LIMIT};
use std::alloc::{AllocError, Global};

// The greatest number of a client.
const LAST: u32 = CLIENT_LIMIT as u32 - 1;

/// The numbers of clients that a word names: none for `-`, and None where it is no order.
#[tactic(auto, unfolding(crate::specs::Asked::order_in))]
pub fn order_in(alloc: Global, word: &str) -> Result<Option<Vec<u32>>, AllocError>
    ensures { IfOk result (λ order. option_map (λ order. order.items) order ≡ order_in word.now) }
{
    if word == "-" {
        return Ok(Some(Vec::new(alloc)));
    }
    let parts = parts_of(word);
    if parts > ORDER_LIMIT {
        return Ok(None);
    }
    numbers_in(alloc, word, parts)
}

// How many parts a word has between commas.
fn parts_of(word: &str) -> usize
    ensures { result ≡ length (slice_split (λ b. b == ascii.comma) word.now) }
{
    word.as_bytes().split(|b| *b == b',').count()
}

// The numbers that a word of so many parts names.
fn numbers_in(alloc: Global, word: &str, parts: usize) -> Result<Option<Vec<u32>>, AllocError>
    ensures { IfOk result (λ numbers. option_map (λ numbers. numbers.items) numbers ≡ numbers_in (slice_split (λ b. b == ascii.comma) word.now)) }
{
    let mut numbers = Vec::with_capacity(alloc, parts)?;
    let mut rest = word;
    while let Some((part, behind)) = rest.split_once(',') {
        let Some(number) = number_in(part, 0, LAST) else {
            return Ok(None);
        };
        numbers.push(number)?;
        rest = behind;
    }
    let Some(number) = number_in(rest, 0, LAST) else {
        return Ok(None);
    };
    numbers.push(number)?;
    Ok(Some(numbers))
}
