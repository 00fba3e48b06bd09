//! The list, its seats and its taker.
ghost use Rattle.std.specs.Prelude.{◌≡◌, ◌≤◌, true, length, None};
ghost use Rattle.prop_list.specs.SegViews.{client_in, is_client, is_taker, taker_in};

use crate::seg::rule::{Pass, Queue};
use crate::tally::Tally;
use std::alloc::Global;

/// The list. Threads may share it.
pub struct List {
    pub(crate) queue: Queue,
    // How many seats were made with it.
    pub(crate) seats: u32,
    // Where `finish` finds memory for its answer.
    pub(crate) alloc: Global,
}

impl Drop for List {
    fn drop(self) {
        let List {
            queue,
            seats: _,
            alloc: _,
        } = self;
        queue.destroy();
    }
}

/// Where one client pushes.
#[derive(Drop)]
pub struct Seat {
    pub(crate) pass: Pass,
    pub(crate) client: u32,
    // How many seats were made with its list.
    pub(crate) seats: u32,
    // The next entry's rank.
    pub(crate) pushed: u64,
    pub ghost idle: { (pass.me.hand ≡ None) × (pass.me.spare ≡ None) × (is_client pass.me.view.client ≡ true) },
    pub ghost own: { ((client_in pass.me.view.client).client ≡ client)
        × (length (client_in pass.me.view.client).accepted ≡ pushed) },
}

/// Who takes from the list.
#[derive(Drop)]
pub struct Taker {
    pub(crate) pass: Pass,
    // At most the number of the entries taken: `finish` needs room for no more than the others.
    pub(crate) taken: u64,
    // How many seats were made with its list.
    pub(crate) seats: u32,
    // Whether it has shut the list, which over a queue refuses nobody.
    pub(crate) has_shut: bool,
    // How often it found nothing, which contracts see alone.
    pub(crate) nones: Tally,
    pub ghost idle: { (pass.id ≡ 0) × (pass.me.hand ≡ None) × (pass.me.spare ≡ None)
        × (is_taker pass.me.view.client ≡ true) },
    pub ghost own: { (taken ≤ length (taker_in pass.me.view.client).taken)
        × (length (taker_in pass.me.view.client).joined ≡ 0) × ((taker_in pass.me.view.client).seated ≡ seats) },
}
