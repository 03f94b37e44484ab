// Hosts of texts, and slots that one thread and two threads lease.
use host_slots::{HostError, Lease, SlotState, Slots, read_hosts};
use io_edges::Host;
use std::alloc::Global;
use std::process::Abort;
use std::sync::Wait;
use std::sync::atomic::{AtomicU32, Ordering};
use std::thread;
use std::thread::Threads;

// A text, and the name, the port and the limit of each of its hosts.
const HOSTS: &[(&str, &[(&str, u16, u32)])] = &[
    (
        "a/1 localhost:4000,cpp,lzo",
        &[("a", 3632, 1), ("localhost", 4000, 2)],
    ),
    ("localhost", &[("localhost", 3632, 2)]),
    ("localhost/64", &[("localhost", 3632, 64)]),
    ("LOCALHOST", &[("LOCALHOST", 3632, 4)]),
    ("10.0.0.1:65535", &[("10.0.0.1", 65535, 4)]),
    (
        "\t x-1.de:1/10,lzo\r\n-\u{b}.\u{c}",
        &[("x-1.de", 1, 10), ("-", 3632, 4), (".", 3632, 4)],
    ),
    ("a a", &[("a", 3632, 4), ("a", 3632, 4)]),
];

#[test]
fn reads_hosts(rt: HostRuntime) {
    for (text, hosts) in HOSTS {
        check_hosts(
            &rt,
            text,
            &hosts_of(&rt, rt.alloc(), text.as_bytes()),
            hosts,
        );
    }
}

fn hosts_of(rt: &impl Abort, alloc: Global, text: &[u8]) -> Vec<Host> {
    read_hosts(alloc, text).expect(rt, "hosts")
}

fn check_hosts(rt: &impl Abort, text: &str, hosts: &[Host], expected: &[(&str, u16, u32)]) {
    assert!(rt; hosts.len() == expected.len(), "{text:?}");
    for (host, (name, port, limit)) in hosts.iter().zip(expected.iter()) {
        assert!(rt;
            host.name.as_slice() == name.as_bytes() && host.port == *port && host.limit == *limit,
            "{text:?}"
        );
    }
}

// A text, and why it names no hosts.
const REFUSED: &[(&str, &str)] = &[
    ("", "Empty"),
    (" \t\n", "Empty"),
    (":1", "Name"),
    ("/1", "Name"),
    (",cpp", "Name"),
    ("a_b", "Name"),
    ("a:", "Port"),
    ("a:0", "Port"),
    ("a:080", "Port"),
    ("a:+1", "Port"),
    ("a:65536", "Port"),
    ("a:99999999999999999999", "Port"),
    ("a/", "Limit"),
    ("a/0", "Limit"),
    ("a/65", "Limit"),
    ("a:1/2:3", "Limit"),
    ("a/2/3", "Limit"),
    ("a,", "Option"),
    ("a,cpp,", "Option"),
    ("a,cpp/3", "Option"),
    ("a,LZO", "Option"),
    ("_:0/0,x", "Name"),
    ("a:0/0,x", "Port"),
    ("a/0,x", "Limit"),
    ("a b:0 _", "Port"),
];

#[test]
fn refuses_what_names_no_hosts(rt: HostRuntime) {
    for (text, why) in REFUSED {
        check_refused(&rt, rt.alloc(), text.as_bytes(), why);
    }
}

fn check_refused(rt: &impl Abort, alloc: Global, text: &[u8], expected: &str) {
    match read_hosts(alloc, text) {
        Ok(_) => panic!(rt; "{expected}"),
        Err(why) => check_reason(rt, alloc, why, expected),
    }
}

fn check_reason(rt: &impl Abort, alloc: Global, why: HostError, expected: &str) {
    let text = format!(in alloc; "{why}").expect(rt, "memory for a text");
    assert!(rt; text.as_str() == expected, "{expected}");
}

#[test]
fn takes_up_to_64_hosts(rt: HostRuntime) {
    let mut text = Vec::new(rt.alloc());
    text.resize(128, b' ').expect(&rt, "memory for a text");
    for i in 0..64 {
        text[2 * i] = b'a';
    }
    assert!(rt; hosts_of(&rt, rt.alloc(), &text).len() == 64);
    text.push(b':').expect(&rt, "memory for a text");
    check_refused(&rt, rt.alloc(), &text, "Many");
}

#[test]
fn takes_names_of_up_to_255_bytes(rt: HostRuntime) {
    let mut text = Vec::new(rt.alloc());
    text.resize(255, b'a').expect(&rt, "memory for a text");
    assert!(rt; hosts_of(&rt, rt.alloc(), &text).len() == 1);
    text.push(b'a').expect(&rt, "memory for a text");
    check_refused(&rt, rt.alloc(), &text, "Name");
}

fn state_of(rt: &impl Abort, alloc: Global, text: &[u8]) -> SlotState {
    let hosts = read_hosts(alloc, text).expect(rt, "hosts");
    SlotState::new(alloc, &hosts).expect(rt, "memory for slots")
}

#[test]
fn leases_the_first_free_slot(rt: HostRuntime) {
    let mut state = state_of(&rt, rt.alloc(), b"a/1 localhost");
    let first = leased(&rt, &mut state, 0);
    let second = leased(&rt, &mut state, 1);
    let third = leased(&rt, &mut state, 1);
    has_no_slot(&rt, &mut state);
    give_back(&rt, &mut state, first);
    let fourth = leased(&rt, &mut state, 0);
    has_no_slot(&rt, &mut state);
    give_back(&rt, &mut state, second);
    give_back(&rt, &mut state, third);
    give_back(&rt, &mut state, fourth);
}

// A slot of this host.
fn leased(rt: &impl Abort, state: &mut SlotState, host: u32) -> Lease {
    match state.take() {
        Some(lease) => {
            assert!(rt; lease.host() == host);
            lease
        }
        None => panic!(rt; "no slot"),
    }
}

fn has_no_slot(rt: &impl Abort, state: &mut SlotState) {
    match state.take() {
        None => (),
        Some(_lease) => panic!(rt; "a slot past the limits"),
    }
}

fn give_back(rt: &impl Abort, state: &mut SlotState, lease: Lease) {
    assert!(rt; state.has_leased(lease.host()), "a slot to give back");
    state.give(lease);
}

// How often each thread leases the slot.
const TURNS: u32 = 500;

// Leases the one slot again and again, and answers whether no other thread had it at these times.
fn has_it_alone<R: Wait>(rt: &R, slots: &Slots, busy: &AtomicU32) -> bool {
    let mut alone = true;
    for _ in 0..TURNS {
        let lease = slots.take_wait(rt);
        alone = busy.fetch_add(1, Ordering::SeqCst) == 0 && alone;
        thread::yield_now();
        busy.fetch_sub(1, Ordering::SeqCst);
        slots.give(rt, lease);
    }
    alone
}

fn two_threads_are_alone<R: Threads + Wait + Sync>(rt: &R, slots: &Slots) -> bool {
    let busy = AtomicU32::new(0);
    let mut alone = [false, false];
    thread::for_each_mut(
        rt,
        &mut alone,
        2,
        &|_, alone| *alone = has_it_alone(rt, slots, &busy),
    );
    alone[0] && alone[1]
}

#[test]
fn two_threads_share_one_slot(rt: HostRuntime) {
    let slots = Slots::new(state_of(&rt, rt.alloc(), b"a/1"));
    assert!(rt; two_threads_are_alone(&rt, &slots));
    let mut state = slots.close();
    let lease = leased(&rt, &mut state, 0);
    has_no_slot(&rt, &mut state);
    give_back(&rt, &mut state, lease);
}
