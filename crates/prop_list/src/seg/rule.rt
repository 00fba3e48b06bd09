//! The queue's rule, and what each step does to the views.
use crate::seg::views::View;
use crossbeam_queue::protocol::{Join, Lesson, Outcome, Protocol, Split};
use crossbeam_queue::{RuledSegQueue, SegPass};
use session_states::Entry;

/// Every entry is one of the client's that pushed it, in order.
pub struct ByClient;

impl Protocol<Entry, View> for ByClient {
    ghost use Rattle.prop_list.specs.SegViews.{Holds, new_taker};
    ghost use Rattle.prop_list.specs.declared.seg.views.View.TheVariants.{Taker};

    ghost holds = { Holds };

    ghost first = { Taker new_taker };
}

pub struct Putting;

impl Outcome<Entry, View> for Putting {
    ghost use Rattle.std.specs.Prelude.{◌≡◌};
    ghost use Rattle.prop_list.specs.SegViews.{after_push};

    ghost then = { λ old entry new. new ≡ after_push entry old };
}

pub struct Taking;

impl Outcome<Entry, View> for Taking {
    ghost use Rattle.prop_list.specs.SegViews.{Takes};

    ghost then = { Takes };
}

impl Lesson<Entry, View> for Taking {
    ghost use Rattle.prop_list.specs.SegViews.{Learns};

    ghost fact = { Learns };
}

pub struct Seating;

impl Split<View> for Seating {
    ghost use Rattle.prop_list.specs.SegViews.{after_seat, new_client, taker_in};
    ghost use Rattle.prop_list.specs.declared.seg.views.View.TheVariants.{Client};

    ghost left = { after_seat };

    ghost right = { λ view. Client (new_client (taker_in view).seated) };
}

impl Join<View> for Seating {
    ghost use Rattle.prop_list.specs.SegViews.{after_join};
    ghost use Rattle.prop_list.specs.declared.seg.views.View.TheVariants.{Spent};

    ghost both = { after_join };

    ghost spent = { Spent };
}

pub type Queue = RuledSegQueue<Entry, View, ByClient>;

pub type Pass = SegPass<Entry, View>;
