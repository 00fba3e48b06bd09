ghost use Rattle.std.specs.Prelude.{◌≡◌, ℕ, ◌+◌, ◌<◌, ◌++◌, ◌∷◌, [], Bool, true, List, None, length};
ghost use Rattle.std.specs.Prelude.{IfErr, IfOk, IfSome, MatchOption, MatchResult, OnOk};
ghost use Rattle.std.specs.List.{AllByRecursion, sum_by};
ghost use Rattle.std.specs.declared.option.Option.{Option};
ghost use Rattle.session_states.specs.declared.item.Entry.{Entry};
ghost use Rattle.prop_list.specs.declared.propagation.PushFault.{PushFault};
ghost use Rattle.prop_list.specs.Lists.{ListId, IsRefusal, Tells, count_of, entries_of};

use session_states::{Entry, Item};
use std::sync::Wait;

/// Why a push is refused.
#[derive(Clone, Copy, Debug, PartialEq, Eq)]
pub enum PushFault {
    /// The list was shut before, and had given out this many tickets then or since.
    Disposed { ticket: u64 },
    /// The place drawn is at or behind the list's last one.
    Full { place: u64 },
    /// No memory was found. The push can be made again.
    OutOfMemory,
}

/// What a list hands back that found no memory to finish: everything, as it was.
pub struct NotFinished<L: Propagation> {
    pub list: L,
    pub taker: L::Taker,
    pub seats: Vec<L::Seat>,
}

/// A list that threads share: each pushes by a seat of its own, and one taker takes from it.
///
/// Contracts see which list a seat or a taker was made with, each seat's client, accepted entries and refusal, and
/// what the taker has taken. No call changes which list a seat or a taker was made with, nor whose a seat is.
///
/// Every fact about what the clients' entries come to stands in `finish`: of each seat's accepted entries those taken
/// and those handed back are all, each once and in order.
///
/// Source: our own (docs/PROFILE.md, "Clients").
pub trait Propagation: Sized {
    /// Where one client pushes.
    type Seat;

    /// Who takes from the list.
    type Taker;

    // Which list it is, and which one a seat and a taker were made with.
    ghost identity: { Self → ListId };

    ghost list_of: { Self.Seat → ListId };

    ghost taken_from: { Self.Taker → ListId };

    // A seat: its client, its accepted entries, and for what it is refused for good, where it is.
    ghost client: { Self.Seat → ℕ };

    ghost accepted: { Self.Seat → List Entry };

    ghost refusal: { Self.Seat → Option PushFault };

    // Whether a seat was told that its last entry is taken, and whether it saw that the list is shut.
    ghost is_passed: { Self.Seat → Bool };

    ghost saw_shut: { Self.Seat → Bool };

    // A taker: what it has taken, whether it has shut the list, and how often it found nothing.
    ghost taken: { Self.Taker → List Entry };

    ghost has_shut: { Self.Taker → Bool };

    ghost nones: { Self.Taker → ℕ };

    // What a form says beyond this: of a refusal, of a look of a seat, and of a taker that found nothing.
    ghost refuses: { ListId → PushFault → Type 0 };

    ghost looks: { Self.Seat → Self.Seat → Type 0 };

    ghost misses: { Self.Taker → Self.Taker → Type 0 };

    /// Puts an item at the end of the seat's accepted ones, and answers its rank, the number of those before it; or
    /// hands it back, and says why. A seat that was refused for good is refused so again.
    fn push<R: Wait>(
        &self,
        rt: &R,
        seat: &mut Self::Seat,
        item: Item,
    ) -> Result<u64, (Item, PushFault)>
        requires { list_of seat.old ≡ identity self.now }
        ensures same { (list_of seat.new ≡ list_of seat.old) × (client seat.new ≡ client seat.old) }
        ensures live { OnOk result ((refusal seat.old ≡ None) × (refusal seat.new ≡ None)) }
        ensures ok { IfOk result (λ rank. (rank ≡ length (accepted seat.old)) × (accepted seat.new
            ≡ accepted seat.old ++ record { client = client seat.old; rank = rank; item = item } ∷ [])) }
        ensures err { IfErr result (λ refused. (refused.0 ≡ item) × (accepted seat.new ≡ accepted seat.old)) }
        ensures cause { IfErr result (λ refused. IsRefusal (refusal seat.old) refused.1 (refusal seat.new)
            × refuses (identity self.now) refused.1) };

    /// Takes the first entry that isn't taken yet; None where there is none just then.
    fn next<R: Wait>(&self, rt: &R, taker: &mut Self::Taker) -> Option<Entry>
        requires { taken_from taker.old ≡ identity self.now }
        ensures same { (taken_from taker.new ≡ taken_from taker.old) × (has_shut taker.new ≡ has_shut taker.old) }
        ensures entry { MatchOption result
            ((taken taker.new ≡ taken taker.old) × (nones taker.new ≡ nones taker.old + 1)
            × misses taker.old taker.new)
            (λ entry. (taken taker.new ≡ taken taker.old ++ entry ∷ []) × (nones taker.new ≡ nones taker.old)) };

    /// Whether the seat's last accepted entry is taken, as far as a look shows.
    fn passed(&self, seat: &mut Self::Seat) -> bool
        requires { list_of seat.old ≡ identity self.now }
        ensures same { (list_of seat.new ≡ list_of seat.old) × (client seat.new ≡ client seat.old)
            × (accepted seat.new ≡ accepted seat.old) × (refusal seat.new ≡ refusal seat.old) }
        ensures looks { looks seat.old seat.new }
        ensures passed { result ≡ is_passed seat.new };

    /// Whether a look shows that the list is shut.
    fn closed(&self, seat: &mut Self::Seat) -> bool
        requires { list_of seat.old ≡ identity self.now }
        ensures same { (list_of seat.new ≡ list_of seat.old) × (client seat.new ≡ client seat.old)
            × (accepted seat.new ≡ accepted seat.old) × (refusal seat.new ≡ refusal seat.old) }
        ensures looks { looks seat.old seat.new }
        ensures closed { result ≡ true → saw_shut seat.new ≡ true };

    /// Shuts the list, where that isn't done yet.
    fn shut(&self, taker: &mut Self::Taker)
        requires { taken_from taker.old ≡ identity self.now }
        ensures same { (taken_from taker.new ≡ taken_from taker.old) × (taken taker.new ≡ taken taker.old)
            × (nones taker.new ≡ nones taker.old) }
        ensures shut { has_shut taker.new ≡ true };

    /// Ends the list, and answers the entries that were accepted and not taken, in its order. The condition is that
    /// the taker and all seats that were made with the list are given back. Where no memory is found, everything is
    /// handed back.
    fn finish<R: Wait>(
        self,
        rt: &R,
        taker: Self::Taker,
        seats: Vec<Self::Seat>,
    ) -> Result<Vec<Entry>, NotFinished<Self>>
        requires taker { taken_from taker ≡ identity self }
        requires seats { AllByRecursion (λ seat. list_of seat ≡ identity self) seats.items }
        requires all { length seats.items ≡ (identity self).seats }
        ensures left { IfOk result (λ left.
            AllByRecursion (λ seat. accepted seat ≡ entries_of (client seat) (taken taker ++ left.items))
            seats.items) }
        ensures named { IfOk result (λ left.
            AllByRecursion (λ entry. entry.client < (identity self).seats) (taken taker ++ left.items)) }
        ensures refused { OnOk result (AllByRecursion (λ seat. IfSome (refusal seat) (Tells (identity self)
            (sum_by (λ other. length (accepted other) + count_of (refusal other)) seats.items) (has_shut taker)))
            seats.items) }
        ensures saw { OnOk result
            (AllByRecursion (λ seat. saw_shut seat ≡ true → has_shut taker ≡ true) seats.items) }
        ensures back { IfErr result (λ back.
            (back.list ≡ self) × (back.taker ≡ taker) × (back.seats.items ≡ seats.items)) };
}
