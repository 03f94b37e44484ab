// The flags of the top call, each with a word behind it.
ghost use Rattle.std.specs.Prelude.{◌≡◌, ◌≤◌, length, map, Some, IfOk, IfSome};
ghost use Rattle.std.specs.List.{All};
ghost use Rattle.std.specs.Option.{option_map};
ghost use Rattle.base_types.specs.Limits.{host_limit};
ghost use Rattle.host_slots.specs.Slots.{HasSlots};
ghost use Rattle.run_words.specs.Asked.{with_hosts, with_clients, with_budget, with_flag, with_flags, nothing_given, hosts_in};
ghost use Rattle.run_words.specs.parts.Flagged.{given_by, FlagsFit};

use crate::numbers::number_in;
use base_types::limits::{BUDGET_LIMIT, CLIENT_LIMIT};
use host_slots::{HostError, read_hosts};
use io_edges::Host;
use std::alloc::{AllocError, Global};

/// What flags give, each of which may stand there once: hosts, how many clients there are, and a budget.
#[derive(Drop)]
pub struct Flags {
    pub hosts: Option<Vec<Host>>,
    pub clients: Option<u32>,
    pub budget: Option<u32>,
}

/// What pairs of a flag and its word give, or None where they give nothing.
#[tactic(auto, unfolding(crate::specs::Asked::with_flags))]
pub fn flags_in(alloc: Global, words: &[&str]) -> Result<Option<Flags>, AllocError>
    ensures flags { IfOk result (λ flags. option_map given_by flags ≡ with_flags (map (λ word. word.now) words.now) (Some nothing_given)) }
    ensures fits { IfOk result (λ flags. IfSome flags FlagsFit) }
{
    let mut flags = Flags {
        hosts: None,
        clients: None,
        budget: None,
    };
    let mut rest = words;
    while let [flag, word, behind @ ..] = rest {
        match with_flag(alloc, flags, flag, word) {
            Ok(Some(given)) => flags = given,
            Ok(None) => return Ok(None),
            Err(error) => return Err(error),
        }
        rest = behind;
    }
    if rest.is_empty() {
        Ok(Some(flags))
    } else {
        Ok(None)
    }
}

// What is given with one flag more.
#[tactic(auto, unfolding(crate::specs::Asked::with_flag))]
fn with_flag(
    alloc: Global,
    flags: Flags,
    flag: &str,
    word: &str,
) -> Result<Option<Flags>, AllocError>
    requires { FlagsFit flags }
    ensures flags { IfOk result (λ more. option_map given_by more ≡ with_flag (given_by flags) flag.now word.now) }
    ensures fits { IfOk result (λ more. IfSome more FlagsFit) }
{
    match flag {
        "--hosts" => with_hosts(alloc, flags, word),
        "-j" => Ok(with_clients(flags, word)),
        "--budget" => Ok(with_budget(flags, word)),
        _ => Ok(None),
    }
}

fn with_hosts(alloc: Global, flags: Flags, word: &str) -> Result<Option<Flags>, AllocError>
    requires { FlagsFit flags }
    ensures flags { IfOk result (λ more. option_map given_by more ≡ with_hosts (given_by flags) word.now) }
    ensures fits { IfOk result (λ more. IfSome more FlagsFit) }
{
    if flags.hosts.is_some() {
        return Ok(None);
    }
    match hosts_in(alloc, word) {
        Ok(Some(hosts)) => Ok(Some(Flags {
            hosts: Some(hosts),
            ..flags
        })),
        Ok(None) => Ok(None),
        Err(error) => Err(error),
    }
}

// The hosts that a word names.
fn hosts_in(alloc: Global, word: &str) -> Result<Option<Vec<Host>>, AllocError>
    ensures hosts { IfOk result (λ hosts. option_map (λ hosts. hosts.items) hosts ≡ hosts_in word.now) }
    ensures few { IfOk result (λ hosts. IfSome hosts (λ hosts. (1 ≤ length hosts.items) × (length hosts.items ≤ host_limit))) }
    ensures slots { IfOk result (λ hosts. IfSome hosts (λ hosts. All HasSlots hosts.items)) }
{
    match read_hosts(alloc, word.as_bytes()) {
        Ok(hosts) => Ok(Some(hosts)),
        Err(HostError::Memory) => Err(AllocError),
        Err(_) => Ok(None),
    }
}

fn with_clients(flags: Flags, word: &str) -> Option<Flags>
    requires { FlagsFit flags }
    ensures flags { option_map given_by result ≡ with_clients (given_by flags) word.now }
    ensures fits { IfSome result FlagsFit }
{
    if flags.clients.is_some() {
        return None;
    }
    match number_in(word, 1, CLIENT_LIMIT as u32) {
        Some(clients) => Some(Flags {
            clients: Some(clients),
            ..flags
        }),
        None => None,
    }
}

fn with_budget(flags: Flags, word: &str) -> Option<Flags>
    requires { FlagsFit flags }
    ensures flags { option_map given_by result ≡ with_budget (given_by flags) word.now }
    ensures fits { IfSome result FlagsFit }
{
    if flags.budget.is_some() {
        return None;
    }
    match number_in(word, 1, BUDGET_LIMIT) {
        Some(budget) => Some(Flags {
            budget: Some(budget),
            ..flags
        }),
        None => None,
    }
}
