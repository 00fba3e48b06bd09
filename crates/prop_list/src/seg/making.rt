//! A new list.
ghost use Rattle.crossbeam_queue.specs.SegTies.{IsSegPassOf};
ghost use Rattle.prop_list.specs.SegSeats.{accepted_by, client_of, id_of, id_of_seat, id_of_taker};
ghost use Rattle.prop_list.specs.SegSeats.{is_shut_by, list_id, nones_of, taken_by};
ghost use Rattle.prop_list.specs.SegViews.{seated_taker};
ghost use Rattle.std.specs.List.{AllByRecursion, range_with_len};
ghost use Rattle.std.specs.Prelude.{◌≡◌, ◌≤◌, ◌<◌, [], IfOk, None, false, length, map, vec_capacity, vec_len};

use crate::seg::rule::{Pass, Queue, Seating};
use crate::seg::seats::{List, Seat, Taker};
use crate::tally::Tally;
use rif_values::OutOfMemory;
use std::alloc::Global;

impl List {
    ghost use Rattle.prop_list.specs.SegSeats.{accepted_by, client_of, id_of, id_of_seat, id_of_taker};
    ghost use Rattle.prop_list.specs.SegSeats.{is_shut_by, nones_of, taken_by};
    ghost use Rattle.std.specs.List.{AllByRecursion, range_with_len};
    ghost use Rattle.std.specs.Prelude.{◌≡◌, ◌≤◌, [], IfOk, None, false, length, map};

    /// A new list, its taker, and as many seats, one for each client, the clients numbered from 0. It takes memory
    /// for the seats and for a queue's first block.
    pub fn new(alloc: Global, seats: u32) -> Result<(List, Taker, Vec<Seat>), OutOfMemory>
        requires { 1 ≤ seats }
        ensures list { IfOk result (λ made. ((id_of made.0).seats ≡ seats) × ((id_of made.0).capacity ≡ None)) }
        ensures taker { IfOk result (λ made. (id_of_taker made.1 ≡ id_of made.0) × (taken_by made.1 ≡ [])
            × (is_shut_by made.1 ≡ false) × (nones_of made.1 ≡ 0)) }
        ensures count { IfOk result (λ made. length made.2.items ≡ seats) }
        ensures seats { IfOk result (λ made. AllByRecursion (λ seat. id_of_seat seat ≡ id_of made.0) made.2.items) }
        ensures fresh { IfOk result (λ made. AllByRecursion (λ seat. accepted_by seat ≡ []) made.2.items) }
        ensures clients { IfOk result (λ made. map client_of made.2.items ≡ range_with_len 0 seats) }
    {
        let nones = Tally::new(alloc)?;
        let mut made = Vec::with_capacity(alloc, seats as usize)?;
        let (queue, mut pass) = Queue::with_rule(alloc)?;
        seat_all(&queue, &mut pass, seats, &mut made);
        let taker = Taker {
            pass,
            taken: 0,
            seats,
            has_shut: false,
            nones,
        };
        let list = List {
            queue,
            seats,
            alloc,
        };
        Ok((list, taker, made))
    }
}

// Makes the seats of all clients.
fn seat_all(queue: &Queue, pass: &mut Pass, count: u32, seats: &mut Vec<Seat>)
    requires taker { IsSegPassOf queue.now pass.old × (pass.old.id ≡ 0)
        × (pass.old.me.view.client ≡ seated_taker 0) }
    requires room { (seats.old.items ≡ []) × (vec_capacity seats.old ≡ count) }
    ensures taker { IsSegPassOf queue.now pass.new × (pass.new.id ≡ 0)
        × (pass.new.me.view.client ≡ seated_taker count) }
    ensures count { length seats.new.items ≡ count }
    ensures seats { AllByRecursion (λ seat. id_of_seat seat ≡ list_id queue.now.web count) seats.new.items }
    ensures fresh { AllByRecursion (λ seat. accepted_by seat ≡ []) seats.new.items }
    ensures clients { map client_of seats.new.items ≡ range_with_len 0 count }
{
    for client in 0..count {
        let other = queue.another::<Seating>(pass);
        seats.push_reserved(Seat {
            pass: other,
            client,
            seats: count,
            pushed: 0,
        });
    }
}
