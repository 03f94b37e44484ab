// What the words of the top call ask for.
ghost use Rattle.std.specs.Prelude.{◌≡◌, ◌≤◌, ◌<◌, ◌&&◌, length, map, nat_le, nat_lt, IfOk, IfSome, Some};
ghost use Rattle.std.specs.List.{All, list_all};
ghost use Rattle.std.specs.Option.{option_map};
ghost use Rattle.base_types.specs.Limits.{client_limit, host_limit, budget_limit};
ghost use Rattle.host_slots.specs.Slots.{HasSlots};
ghost use Rattle.run_words.specs.Asked.{settings_of, settings_by, settings_with, settings_given, order_in, with_flags, nothing_given};
ghost use Rattle.run_words.specs.parts.Flagged.{given_by, settings_by_asked, FlagsFit};

use crate::flags::{Flags, flags_in};
use crate::order::order_in;
use base_types::limits::DEFAULT_BUDGET;
use io_edges::Host;
use std::alloc::{AllocError, Global};

/// What words ask for: the numbers of clients whose turns come first, the hosts, how many clients there are, and the budget
/// of an analysis.
#[derive(Debug, Drop)]
pub struct Asked {
    pub order: Vec<u32>,
    pub hosts: Vec<Host>,
    pub clients: u32,
    pub budget: u32,
}

/// What the words `order ORDER` and the flags behind them ask for, or None where they aren't in their grammar, ask for more
/// clients than there are ends, or name a client that there isn't. ORDER is `-`, or numbers of clients from 0 with a `,` between
/// them, at most 1,000,000. The flags are `--hosts TEXT`, `-j N` (1 to 64; by default one client for each end) and `--budget N`
/// (1 to 65,536; by default 4,096), each at most once and in any order; only `--hosts` must be there. Time is proportional to
/// the bytes of the words. The only error is want of memory.
pub fn asked_in(alloc: Global, ends: usize, words: &[&str]) -> Result<Option<Asked>, AllocError>
    requires few { ends ≤ client_limit }
    ensures asked { IfOk result (λ asked. option_map settings_by_asked asked ≡ settings_of ends (map (λ word. word.now) words.now)) }
    ensures clients { IfOk result (λ asked. IfSome asked (λ a. (1 ≤ ends → 1 ≤ a.clients) × (a.clients ≤ ends))) }
    ensures order { IfOk result (λ asked. IfSome asked (λ a. All (λ client. client < a.clients) a.order.items)) }
    ensures hosts { IfOk result (λ asked. IfSome asked (λ a. (1 ≤ length a.hosts.items) × (length a.hosts.items ≤ host_limit))) }
    ensures slots { IfOk result (λ asked. IfSome asked (λ a. All HasSlots a.hosts.items)) }
    ensures budget { IfOk result (λ asked. IfSome asked (λ a. (1 ≤ a.budget) × (a.budget ≤ budget_limit))) }
{
    let [command, order, flags @ ..] = words else {
        return Ok(None);
    };
    if *command != "order" {
        return Ok(None);
    }
    let Some(order) = order_in(alloc, order)? else {
        return Ok(None);
    };
    let Some(flags) = flags_in(alloc, flags)? else {
        return Ok(None);
    };
    Ok(asked_by(ends, order, flags))
}

// What an order and flags ask for, or None where no hosts are given or clients are missing.
fn asked_by(ends: usize, order: Vec<u32>, flags: Flags) -> Option<Asked>
    requires few { ends ≤ client_limit }
    requires fits { FlagsFit flags }
    ensures asked { option_map settings_by_asked result ≡ settings_given ends order.items (given_by flags) }
    ensures clients { IfSome result (λ a. (1 ≤ ends → 1 ≤ a.clients) × (a.clients ≤ ends)) }
    ensures order { IfSome result (λ a. All (λ client. client < a.clients) a.order.items) }
    ensures hosts { IfSome result (λ a. (1 ≤ length a.hosts.items) × (length a.hosts.items ≤ host_limit)) }
    ensures slots { IfSome result (λ a. All HasSlots a.hosts.items) }
    ensures budget { IfSome result (λ a. (1 ≤ a.budget) × (a.budget ≤ budget_limit)) }
{
    let Flags {
        hosts,
        clients,
        budget,
    } = flags;
    let Some(hosts) = hosts else {
        return None;
    };
    let clients = clients.unwrap_or(ends as u32);
    if !has_clients(&order, clients, ends) {
        return None;
    }
    Some(Asked {
        order,
        hosts,
        clients,
        budget: budget.unwrap_or(DEFAULT_BUDGET),
    })
}

// There are ends for so many clients, and each number is that of one.
fn has_clients(order: &[u32], clients: u32, ends: usize) -> bool
    ensures { result ≡ (nat_le clients ends && list_all (λ client. nat_lt client clients) order.now) }
{
    clients as usize <= ends && are_below(order, clients)
}

fn are_below(order: &[u32], clients: u32) -> bool
    ensures { result ≡ list_all (λ client. nat_lt client clients) order.now }
{
    order.iter().all(|client| *client < clients)
}
