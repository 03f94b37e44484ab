// The host of one word.
ghost use Rattle.std.specs.Prelude.{◌≡◌, ◌≤◌, ◌<◌, ◌⊎◌, ◌^◌, ℕ, Ok, Err, length, drop, IfOk, IfErr, IfSome};
ghost use Rattle.std.specs.List.{list_all, list_any, slice_split, position_or_len};
ghost use Rattle.base_types.specs.Limits.{slot_limit};
ghost use Rattle.host_slots.specs.Hosts.{host_of, host_with_name, is_host_name, is_host_name_byte, is_digit, is_option, are_options, is_one_of, number_behind_mark, rest_at, number_in, default_limit};
ghost use Rattle.host_slots.specs.Slots.{HasSlots};

use crate::HostError;
use crate::number::{is_digit, number_in};
use base_types::Bytes;
use base_types::limits::SLOT_LIMIT;
use io_edges::Host;
use std::alloc::Global;

// The port of distcc.
const PORT: u32 = 3632;

// The greatest port.
const PORT_LIMIT: u32 = 65_535;

// The slots of the own machine, and of any other host, where a word doesn't say how many.
const OWN_SLOTS: u32 = 2;

const SLOTS: u32 = 4;

// The greatest length of a name, in bytes.
const NAME_LIMIT: usize = 255;

// The host of a word.
#[tactic(auto, unfolding(crate::specs::Hosts::host_of))]
pub fn host_of(alloc: Global, word: &[u8]) -> Result<Host, HostError>
    ensures host { IfOk result (λ host. host_of word.now ≡ Ok host) }
    ensures slots { IfOk result HasSlots }
    ensures why { IfErr result (λ e. (e ≡ HostError.Memory) ⊎ (host_of word.now ≡ Err e)) }
{
    let (name, rest) = word.split_at(end_of(word, b":/,"));
    host_with_name(alloc, name, rest)
}

// The host of a word with this name, and this behind it.
fn host_with_name(alloc: Global, name: &[u8], rest: &[u8]) -> Result<Host, HostError>
    ensures host { IfOk result (λ host. host_with_name name.now rest.now ≡ Ok host) }
    ensures slots { IfOk result HasSlots }
    ensures why { IfErr result (λ e. (e ≡ HostError.Memory) ⊎ (host_with_name name.now rest.now ≡ Err e)) }
{
    if !is_host_name(name) {
        return Err(HostError::Name);
    }
    let Some(port) = number_at(rest, b':', b"/,", PORT, PORT_LIMIT) else {
        return Err(HostError::Port);
    };
    let rest = rest_at(rest, b':', b"/,");
    let Some(limit) = number_at(rest, b'/', b",", default_limit(name), SLOT_LIMIT) else {
        return Err(HostError::Limit);
    };
    if !are_options(rest_at(rest, b'/', b",")) {
        return Err(HostError::Option);
    }
    Ok(Host {
        name: Bytes::copy_of(alloc, name)?,
        port: port as u16,
        limit,
    })
}

// Where the first of these bytes stands, or the length where there is none.
fn end_of(text: &[u8], ends: &[u8]) -> usize
    ensures place { result ≡ position_or_len (is_one_of ends.now) text.now }
    ensures within { result ≤ length text.now }
{
    text.iter().take_while(|b| !is_one_of(**b, ends)).count()
}

fn is_one_of(b: u8, marks: &[u8]) -> bool
    ensures { result ≡ is_one_of marks.now b }
{
    marks.iter().any(|mark| b == *mark)
}

#[tactic(auto, using(std::proofs::lemmas::Bool::Decides::nat_tests), unfolding(crate::specs::Hosts::is_host_name))]
fn is_host_name(name: &[u8]) -> bool
    ensures { result ≡ is_host_name name.now }
{
    let length = name.len();
    1 <= length && (length <= NAME_LIMIT && has_name_bytes(name))
}

fn has_name_bytes(name: &[u8]) -> bool
    ensures { result ≡ list_all is_host_name_byte name.now }
{
    name.iter().all(|b| is_name_byte(*b))
}

fn is_name_byte(b: u8) -> bool
    ensures { result ≡ is_host_name_byte b }
{
    (b'a' <= b && b <= b'z')
        || ((b'A' <= b && b <= b'Z') || (is_digit(b) || (b'-' <= b && b <= b'.')))
}

// The slots of a host whose word doesn't say how many: two on the own machine, else four.
fn default_limit(name: &[u8]) -> u32
    ensures default { result ≡ default_limit name.now }
    ensures some { (1 ≤ result) × (result ≤ slot_limit) }
{
    if name == b"localhost".as_slice() {
        OWN_SLOTS
    } else {
        SLOTS
    }
}

// The number behind a mark, up to a byte that ends it, or the default where the mark isn't there.
fn number_at(text: &[u8], mark: u8, ends: &[u8], default: u32, most: u32) -> Option<u32>
    requires default { (1 ≤ default) × (default ≤ most) }
    requires most { most ≤ 65535 }
    ensures number { result ≡ number_behind_mark mark ends.now default most text.now }
    ensures within { IfSome result (λ n. (1 ≤ n) × (n ≤ most)) }
{
    match text {
        [first, rest @ ..] if *first == mark => number_in(&rest[..end_of(rest, ends)], most),
        _ => Some(default),
    }
}

// What stands behind that number.
fn rest_at<'a>(text: &'a [u8], mark: u8, ends: &[u8]) -> &'a [u8]
    ensures { result.now ≡ rest_at mark ends.now text.now }
{
    match text {
        [first, rest @ ..] if *first == mark => &rest[end_of(rest, ends)..],
        _ => text,
    }
}

// Nothing, or options with a `,` in front of each.
fn are_options(text: &[u8]) -> bool
    ensures { result ≡ are_options text.now }
{
    match text {
        [_, options @ ..] => options
            .split(|b| *b == b',')
            .all(|option| is_option(option)),
        [] => true,
    }
}

fn is_option(text: &[u8]) -> bool
    ensures { result ≡ is_option text.now }
{
    text == b"cpp".as_slice() || text == b"lzo".as_slice()
}
