// The word that counts the draws, and the seats that draw.
ghost use Rattle.std.specs.Prelude.{◌≡◌, ℕ, ◌<◌, true, IfOk, IfSome, IfNone, None};
ghost use Rattle.job_tickets.specs.Seats.{IsOf, IsEachBelow, first_seat, with_drawn, without_number, with_one_more, other_seat, with_seat, times};

use crate::View;
use atomic_table::{Join, Play, Split, Table, TableRule};
use std::alloc::{AllocError, Global};
use std::marker::Model;

/// The rule of the word: it counts the draws, and each number below the limit is drawn once.
pub struct Numbers;

impl TableRule<(), View, u64> for Numbers {
    ghost use Rattle.job_tickets.specs.parts.Drawn.{AreCounted, first_view};

    ghost holds = { AreCounted };

    ghost first = { first_view };
}

struct Draw;

impl Play<(), View> for Draw {
    ghost use Rattle.job_tickets.specs.parts.Drawn.{Draws};

    ghost then = { Draws };
}

struct Cut;

impl Split<View> for Cut {
    ghost use Rattle.job_tickets.specs.parts.Drawn.{keeps_seat, new_seat};

    ghost left = { keeps_seat };

    ghost right = { new_seat };
}

impl Join<View> for Cut {
    ghost use Rattle.job_tickets.specs.parts.Drawn.{seats_joined, spent_view};

    ghost both = { seats_joined };

    ghost spent = { spent_view };
}

/// The numbers below a limit, which seats draw.
#[derive(Drop)]
pub struct Tickets {
    limit: u32,
    table: Table<(), View, u64, Numbers, Global>,
}

impl Model for Tickets {
    ghost use Rattle.job_tickets.specs.Seats.{TicketData};
    ghost use Rattle.job_tickets.specs.parts.Drawn.{IsTicketTable};

    ghost Value = { TicketData };

    ghost view = { λ t. record { table = t.table.shared.table_id; limit = t.limit } };

    ghost invariant = { λ t. IsTicketTable t.limit t.table.shared.key t.table.shared.table_id };
}

/// A thread draws with it. Contracts see the seats that were joined into it and what they drew.
#[derive(Drop)]
pub struct Seat {
    limit: u32,
    done: bool,
    seat: atomic_table::Seat<(), View>,
}

impl Model for Seat {
    ghost use Rattle.job_tickets.specs.Seats.{SeatData};
    ghost use Rattle.job_tickets.specs.parts.Drawn.{SeatKeeps};

    ghost Value = { SeatData };

    ghost view = { λ s. record { table = s.seat.table_id; limit = s.limit; made = s.seat.me.0.made; seats = s.seat.me.0.seats; drawn = s.seat.me.0.drawn; all = s.seat.me.0.all; done = s.done } };

    ghost invariant = { λ s. SeatKeeps s.limit s.done s.seat.me.0 s.seat.me.1 };
}

impl Tickets {
    /// The numbers below n, and their first seat.
    pub fn new(alloc: Global, n: u32) -> Result<(Tickets, Seat), AllocError>
        ensures limit { IfOk result (λ r. r.0.limit ≡ n) }
        ensures first { IfOk result (λ r. r.1 ≡ first_seat r.0) }
    {
        let limit = n as u64;
        let (table, seat) = Table::of_words(alloc, &[0], &limit)?;
        Ok((
            Tickets { limit: n, table },
            Seat {
                limit: n,
                done: false,
                seat,
            },
        ))
    }

    /// Draws the next number from 0 on, which is above all that the seat drew before. None where all were drawn at this step; from
    /// then on the seat gets None without a step.
    pub fn draw(&self, seat: &mut Seat) -> Option<u32>
        requires own { IsOf self.now seat.old }
        ensures some { IfSome result (λ n. (n < self.now.limit) × (seat.new ≡ with_drawn n seat.old)) }
        ensures above { IfSome result (λ n. (x : ℕ) → 0 < times x seat.old.drawn → x < n) }
        ensures none { IfNone result (seat.new ≡ without_number seat.old) }
        ensures done { seat.old.done ≡ true → result ≡ None }
    {
        if seat.done {
            return None;
        }
        let found = self.table.shared.fetch_add::<Draw>(&mut seat.seat, 0, 1);
        if found < self.limit as u64 {
            return Some(found as u32);
        }
        seat.done = true;
        None
    }

    /// Makes a seat for another thread. The first seat alone does, at most 63 times.
    pub fn split(&self, seat: &mut Seat) -> Seat
        requires own { IsOf self.now seat.old }
        requires first { (0 < seat.old.made) × (seat.old.made < 64) }
        ensures first { seat.new ≡ with_one_more seat.old }
        ensures other { result ≡ other_seat seat.old }
    {
        let inner = self.table.shared.split_seat::<Cut>(&mut seat.seat);
        Seat {
            limit: self.limit,
            done: false,
            seat: inner,
        }
    }

    /// Takes in another seat, which isn't the first.
    pub fn join(&self, seat: &mut Seat, other: Seat)
        requires own { IsOf self.now seat.old }
        requires other { IsOf self.now other × (other.made ≡ 0) }
        ensures { seat.new ≡ with_seat seat.old other }
    {
        let Seat {
            limit: _,
            done: _,
            seat: inner,
        } = other;
        self.table.shared.join_seat::<Cut>(&mut seat.seat, inner);
    }

    /// The numbers that the first seat and all others drew are those below the limit, each once: all others were joined into it,
    /// and one of them found that all numbers were drawn.
    pub fn close(self, seat: Seat)
        requires own { IsOf self seat }
        requires first { 0 < seat.made }
        requires joined { seat.seats ≡ seat.made }
        requires all { seat.all ≡ true }
        ensures { IsEachBelow self.limit seat.drawn }
    {
        let Tickets { limit: _, table } = self;
        let Seat {
            limit: _,
            done: _,
            seat: inner,
        } = seat;
        let closed = table.close_with(inner);
        closed.free();
    }
}
