// Numbers that one thread and two threads draw.
ghost use Rattle.std.specs.Prelude.{◌≡◌, true};
ghost use Rattle.job_tickets.specs.Seats.{IsOf};

use job_tickets::{Seat, Tickets};
use std::process::Abort;
use std::thread::{Threads, join_mut};

#[test]
fn draws_two_numbers(rt: HostRuntime) {
    let (tickets, mut seat) = Tickets::new(rt.alloc(), 2).expect(&rt, "memory for numbers");
    assert!(rt; tickets.draw(&mut seat) == Some(0));
    assert!(rt; tickets.draw(&mut seat) == Some(1));
    assert!(rt; tickets.draw(&mut seat) == None);
    assert!(rt; tickets.draw(&mut seat) == None);
    match tickets.draw(&mut seat) {
        None => tickets.close(seat),
        Some(n) => panic!(rt; "{n}"),
    }
}

// How many numbers there are.
const NUMBERS: u32 = 20_000;

// Draws numbers until there is none, and answers how many it drew.
fn draw_all(tickets: &Tickets, seat: &mut Seat) -> u32
    requires { IsOf tickets.now seat.old }
    ensures own { IsOf tickets.now seat.new }
    ensures seats { (seat.new.made ≡ seat.old.made) × (seat.new.seats ≡ seat.old.seats) }
{
    for drawn in 0..NUMBERS {
        if tickets.draw(seat).is_none() {
            return drawn;
        }
    }
    NUMBERS
}

fn two_threads_draw_all<R: Threads + Abort + Sync>(rt: &R, tickets: Tickets, first: Seat)
    requires own { IsOf tickets first }
    requires seats { (first.made ≡ 1) × (first.seats ≡ 1) }
{
    let mut first = first;
    let mut other = tickets.split(&mut first);
    let shared = &tickets;
    let (a, b) = join_mut(
        rt,
        &mut || draw_all(shared, &mut first),
        &mut || draw_all(shared, &mut other),
    );
    assert!(rt; a <= NUMBERS && b <= NUMBERS && a + b == NUMBERS);
    tickets.join(&mut first, other);
    match tickets.draw(&mut first) {
        None => tickets.close(first),
        Some(n) => panic!(rt; "{n}"),
    }
}

#[test]
fn two_threads_draw_each_number_once(rt: HostRuntime) {
    let (tickets, seat) = Tickets::new(rt.alloc(), NUMBERS).expect(&rt, "memory for numbers");
    two_threads_draw_all(&rt, tickets, seat);
}
