// The hosts that a text names.
ghost use Rattle.std.specs.Prelude.{◌≡◌, ◌≤◌, ◌⊎◌, Ok, Err, length, map, nat_lt, IfOk, IfErr};
ghost use Rattle.std.specs.List.{All, filter, slice_split};
ghost use Rattle.base_types.specs.Limits.{host_limit};
ghost use Rattle.host_slots.specs.Hosts.{hosts_of, hosts_of_words, host_words, each_host, is_space};
ghost use Rattle.host_slots.specs.Slots.{HasSlots};

use crate::word::host_of;
use base_types::limits::HOST_LIMIT;
use io_edges::Host;
use std::alloc::{AllocError, Global};
use thiserror::Error;

/// Why a text names no hosts. First `Empty`: it has no words; then `Many`: more than 64. Then the first word that is no host
/// decides, and in it what is wrong furthest left: its name (`Name`), its port (`Port`), its number of slots (`Limit`), an
/// option (`Option`). `Memory`: no memory was found.
#[derive(Clone, Copy, Debug, PartialEq, Eq, Drop, Error)]
pub enum HostError {
    #[error("Empty")]
    Empty,
    #[error("Name")]
    Name,
    #[error("Port")]
    Port,
    #[error("Limit")]
    Limit,
    #[error("Option")]
    Option,
    #[error("Many")]
    Many,
    #[error("Memory")]
    Memory,
}

impl From<AllocError> for HostError {
    ghost use Rattle.std.specs.Prelude.{◌≡◌};
    ghost use Rattle.host_slots.specs.declared.hosts.HostError.{HostError};

    ghost from_gives = { λ _ e. e ≡ HostError.Memory };

    fn from(_error: AllocError) -> HostError {
        HostError::Memory
    }
}

/// The hosts that a text names: 1 to 64 words with white space between them, each `HOST`, `HOST:PORT`, `HOST/LIMIT` or
/// `HOST:PORT/LIMIT`, and behind it any number of options, each with a `,` in front. HOST is 1 to 255 letters, digits, `.` or
/// `-`; PORT is 1 to 65535, by default distcc's 3632; LIMIT is how many slots the host has, 1 to 64, by default 2 for
/// `localhost` and else 4. The options `cpp` and `lzo` have no effect.
#[tactic(auto, unfolding(crate::specs::Hosts::hosts_of))]
pub fn read_hosts(alloc: Global, text: &[u8]) -> Result<Vec<Host>, HostError>
    ensures hosts { IfOk result (λ hosts. hosts_of text.now ≡ Ok hosts.items) }
    ensures few { IfOk result (λ hosts. (1 ≤ length hosts.items) × (length hosts.items ≤ host_limit)) }
    ensures slots { IfOk result (λ hosts. All HasSlots hosts.items) }
    ensures why { IfErr result (λ e. (e ≡ HostError.Memory) ⊎ (hosts_of text.now ≡ Err e)) }
{
    let words = words_of(alloc, text)?;
    hosts_of_words(alloc, &words)
}

// The words of a text.
fn words_of(alloc: Global, text: &[u8]) -> Result<Vec<&[u8]>, AllocError>
    ensures { IfOk result (λ words. map (λ word. word.now) words.items ≡ host_words text.now) }
{
    text.split(|b| is_space(*b))
        .filter(|part| !part.is_empty())
        .collect(alloc)
}

fn is_space(b: u8) -> bool
    ensures { result ≡ is_space b }
{
    b == b' ' || (b'\t' <= b && b <= b'\r')
}

// The hosts of 1 to 64 words.
fn hosts_of_words(alloc: Global, words: &[&[u8]]) -> Result<Vec<Host>, HostError>
    ensures hosts { IfOk result (λ hosts. hosts_of_words (map (λ word. word.now) words.now) ≡ Ok hosts.items) }
    ensures few { IfOk result (λ hosts. (1 ≤ length hosts.items) × (length hosts.items ≤ host_limit)) }
    ensures slots { IfOk result (λ hosts. All HasSlots hosts.items) }
    ensures why { IfErr result (λ e. (e ≡ HostError.Memory) ⊎ (hosts_of_words (map (λ word. word.now) words.now) ≡ Err e)) }
{
    if words.is_empty() {
        return Err(HostError::Empty);
    }
    if words.len() > HOST_LIMIT {
        return Err(HostError::Many);
    }
    each_host(alloc, words)
}

// The host of each word.
fn each_host(alloc: Global, words: &[&[u8]]) -> Result<Vec<Host>, HostError>
    ensures hosts { IfOk result (λ hosts. each_host (map (λ word. word.now) words.now) ≡ Ok hosts.items) }
    ensures each { IfOk result (λ hosts. length hosts.items ≡ length words.now) }
    ensures slots { IfOk result (λ hosts. All HasSlots hosts.items) }
    ensures why { IfErr result (λ e. (e ≡ HostError.Memory) ⊎ (each_host (map (λ word. word.now) words.now) ≡ Err e)) }
{
    let mut hosts = Vec::with_capacity(alloc, words.len())?;
    for word in words {
        let host = host_of(alloc, word)?;
        hosts.push_reserved(host);
    }
    Ok(hosts)
}
