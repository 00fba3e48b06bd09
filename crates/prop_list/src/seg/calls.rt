//! What the list, its seats and its taker do.
use crate::propagation::{NotFinished, Propagation, PushFault};
use crate::seg::ending::{drain, join_all, room_for};
use crate::seg::rule::{Putting, Taking};
use crate::seg::seats::{List, Seat, Taker};
use session_states::{Entry, Item};
use std::sync::Wait;

impl Propagation for List {
    ghost use Rattle.prop_list.specs.Lists.{Tells, count_of, entries_of};
    ghost use Rattle.prop_list.specs.SegSeats.{accepted_by, client_of, id_of, id_of_seat, id_of_taker};
    ghost use Rattle.prop_list.specs.SegSeats.{is_shut_by, nones_of, refusal_of, taken_by};
    ghost use Rattle.prop_list.specs.declared.propagation.PushFault.TheVariants.{OutOfMemory};
    ghost use Rattle.std.specs.List.{AllByRecursion, sum_by};
    ghost use Rattle.std.specs.Prelude.{◌≡◌, ◌+◌, ◌<◌, ◌++◌, true, false, length, IfErr, IfOk, IfSome, OnOk};

    type Seat = Seat;

    type Taker = Taker;

    ghost identity = { id_of };

    ghost list_of = { id_of_seat };

    ghost taken_from = { id_of_taker };

    ghost client = { client_of };

    ghost accepted = { accepted_by };

    ghost refusal = { refusal_of };

    ghost is_passed = { λ seat. true };

    ghost saw_shut = { λ seat. false };

    ghost taken = { taken_by };

    ghost has_shut = { is_shut_by };

    ghost nones = { nones_of };

    ghost refuses = { λ id fault. fault ≡ OutOfMemory };

    ghost looks = { λ old new. Unit {0} };

    ghost misses = { λ old new. Unit {0} };

    /// In constant time but for the queue's blocks, each of which holds 31 entries: memory is asked for where one is
    /// full. It waits where another push makes that block. A rank past 2^64 - 2 counts as want of memory.
    fn push<R: Wait>(&self, rt: &R, seat: &mut Seat, item: Item) -> Result<u64, (Item, PushFault)> {
        let rank = seat.pushed;
        let Some(next) = rank.checked_add(1) else {
            return Err((item, PushFault::OutOfMemory));
        };
        let entry = Entry {
            client: seat.client,
            rank,
            item,
        };
        match self.queue.push_as::<Putting, R>(rt, &mut seat.pass, entry) {
            Ok(()) => {
                seat.pushed = next;
                Ok(rank)
            }
            Err(entry) => Err((entry.item, PushFault::OutOfMemory)),
        }
    }

    /// In constant time, with no memory. It waits where a push that drew the entry's place hasn't written it yet.
    fn next<R: Wait>(&self, rt: &R, taker: &mut Taker) -> Option<Entry> {
        match self.queue.pop_as::<Taking, R>(rt, &mut taker.pass) {
            Some(entry) => {
                taker.taken = taker.taken.saturating_add(1);
                Some(entry)
            }
            None => {
                taker.nones.rise();
                None
            }
        }
    }

    /// True: over a queue nothing tells which entries are taken.
    fn passed(&self, _seat: &mut Seat) -> bool {
        true
    }

    /// False: a queue isn't shut.
    fn closed(&self, _seat: &mut Seat) -> bool {
        false
    }

    /// In constant time, with no memory: it tells the taker alone, since a queue isn't shut.
    fn shut(&self, taker: &mut Taker) {
        taker.has_shut = true;
    }

    /// In time and memory linear in the entries that are left, and in the seats.
    fn finish<R: Wait>(
        self,
        rt: &R,
        taker: Taker,
        seats: Vec<Seat>,
    ) -> Result<Vec<Entry>, NotFinished<List>>
        requires taker { id_of_taker taker ≡ id_of self }
        requires seats { AllByRecursion (λ seat. id_of_seat seat ≡ id_of self) seats.items }
        requires all { length seats.items ≡ (id_of self).seats }
        ensures left { IfOk result (λ left. AllByRecursion
            (λ seat. accepted_by seat ≡ entries_of (client_of seat) (taken_by taker ++ left.items)) seats.items) }
        ensures named { IfOk result (λ left.
            AllByRecursion (λ entry. entry.client < (id_of self).seats) (taken_by taker ++ left.items)) }
        ensures refused { OnOk result (AllByRecursion (λ seat. IfSome (refusal_of seat) (Tells (id_of self)
            (sum_by (λ other. length (accepted_by other) + count_of (refusal_of other)) seats.items)
            (is_shut_by taker))) seats.items) }
        ensures saw { OnOk result (AllByRecursion (λ seat. false ≡ true → is_shut_by taker ≡ true) seats.items) }
        ensures back { IfErr result (λ back.
            (back.list ≡ self) × (back.taker ≡ taker) × (back.seats.items ≡ seats.items)) }
    {
        let Ok(mut left) = room_for(self.alloc, seats.as_slice(), taker.taken) else {
            return Err(NotFinished {
                list: self,
                taker,
                seats,
            });
        };
        let Taker {
            mut pass,
            taken: _,
            seats: _,
            has_shut: _,
            nones: _,
        } = taker;
        join_all(&self.queue, &mut pass, seats);
        drain(rt, &self.queue, &mut pass, &mut left);
        Ok(left)
    }
}
