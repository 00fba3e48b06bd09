//! The steps of `finish`.
ghost use Rattle.crossbeam_queue.specs.SegTies.{IsSegPassOf};
ghost use Rattle.prop_list.specs.SegEnds.{joined_onto, pushed_by};
ghost use Rattle.prop_list.specs.SegViews.{is_taker, pushes, Settled, sum_over, taker_in};
ghost use Rattle.std.specs.List.{AllByRecursion};
ghost use Rattle.std.specs.Prelude.{◌≡◌, ◌+◌, ◌≤◌, ◌++◌, [], true, IfOk, IfSome, length, vec_capacity};

use crate::seg::rule::{Pass, Queue, Seating, Taking};
use crate::seg::seats::Seat;
use session_states::Entry;
use std::alloc::{AllocError, Global};
use std::sync::Wait;

// Room for what the seats pushed beyond these.
pub(crate) fn room_for(alloc: Global, seats: &[Seat], taken: u64) -> Result<Vec<Entry>, AllocError>
    ensures { IfOk result (λ left. (left.items ≡ []) × (pushed_by seats.now ≤ vec_capacity left + taken)) }
{
    match pushed_by_all(seats) {
        Some(pushed) => Vec::with_capacity(alloc, pushed.saturating_sub(taken) as usize),
        None => Err(AllocError),
    }
}

fn pushed_by_all(seats: &[Seat]) -> Option<u64>
    ensures { IfSome result (λ pushed. pushed ≡ pushed_by seats.now) }
{
    let mut pushed = 0u64;
    for seat in seats {
        pushed = pushed.checked_add(seat.pushed)?;
    }
    Some(pushed)
}

// Takes all seats back.
pub(crate) fn join_all(queue: &Queue, pass: &mut Pass, seats: Vec<Seat>)
    requires taker { IsSegPassOf queue.now pass.old × (pass.old.id ≡ 0)
        × (is_taker pass.old.me.view.client ≡ true) }
    requires seats { AllByRecursion (λ seat. seat.pass.web ≡ queue.now.web) seats.items }
    ensures taker { IsSegPassOf queue.now pass.new × (pass.new.id ≡ 0)
        × (is_taker pass.new.me.view.client ≡ true) }
    ensures same { ((taker_in pass.new.me.view.client).taken ≡ (taker_in pass.old.me.view.client).taken)
        × ((taker_in pass.new.me.view.client).seated ≡ (taker_in pass.old.me.view.client).seated) }
    ensures joined { (taker_in pass.new.me.view.client).joined
        ≡ joined_onto (taker_in pass.old.me.view.client).joined seats.items }
{
    let mut seats = seats;
    while let Some(seat) = seats.pop() {
        let Seat {
            pass: other,
            client: _,
            seats: _,
            pushed: _,
        } = seat;
        queue.absorb::<Seating>(pass, other);
    }
}

// Takes the entries that are left, once all seats are taken back.
pub(crate) fn drain<R: Wait>(rt: &R, queue: &Queue, pass: &mut Pass, left: &mut Vec<Entry>)
    requires taker { IsSegPassOf queue.now pass.old × (pass.old.id ≡ 0)
        × (is_taker pass.old.me.view.client ≡ true) }
    requires all { length (taker_in pass.old.me.view.client).joined ≡ (taker_in pass.old.me.view.client).seated }
    requires room { (left.old.items ≡ []) × (sum_over pushes (taker_in pass.old.me.view.client).joined
        ≤ vec_capacity left.old + length (taker_in pass.old.me.view.client).taken) }
    ensures same { ((taker_in pass.new.me.view.client).joined ≡ (taker_in pass.old.me.view.client).joined)
        × ((taker_in pass.new.me.view.client).seated ≡ (taker_in pass.old.me.view.client).seated) }
    ensures left { (taker_in pass.new.me.view.client).taken
        ≡ (taker_in pass.old.me.view.client).taken ++ left.new.items }
    ensures settled { Settled (taker_in pass.new.me.view.client) [] }
{
    while let Some(entry) = queue.pop_as::<Taking, R>(rt, pass) {
        left.push_reserved(entry);
    }
}
