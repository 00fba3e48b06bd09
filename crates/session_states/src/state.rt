ghost use Rattle.std.specs.Prelude.{◌≡◌};
ghost use Rattle.session_states.specs.Machine.{state_after, joined_budget};

use crate::item::Item;

/// The state of a session. A budget is the number of firings that are left.
///
/// Source: our own (docs/PROFILE.md, "The session machine").
#[derive(Clone, Copy, Debug, PartialEq, Eq)]
pub enum State {
    /// No rule fires.
    Idle,
    /// Rules fire until none is eligible or the budget is spent.
    Firing(u64),
    /// Rules fire until a halt, or until the budget is spent.
    UntilHalt(u64),
    /// Nothing happens any more.
    Disposed,
}

/// The state that an item leads to, in constant time.
///
/// Budgets are counted in firings, and a sum above `u64::MAX` is cut to it.
///
/// Source: our own (docs/PROFILE.md, "The session machine").
pub fn after(state: State, item: &Item) -> State
    ensures { result ≡ state_after state item.now }
{
    match item {
        Item::Change(_) => state,
        Item::Fire(more) => fired(state, *more),
        Item::Until(more) => until(state, *more),
        Item::Halt => halted(state),
        Item::Dispose => State::Disposed,
    }
}

fn fired(state: State, more: u64) -> State
    ensures { result ≡ state_after state (Item.Fire more) }
{
    match state {
        State::Idle => State::Firing(more),
        State::Firing(left) => State::Firing(left.saturating_add(more)),
        State::UntilHalt(left) => State::UntilHalt(left.saturating_add(more)),
        State::Disposed => State::Disposed,
    }
}

fn until(state: State, more: u64) -> State
    ensures { result ≡ state_after state (Item.Until more) }
{
    match state {
        State::Idle => State::UntilHalt(more),
        State::Firing(left) | State::UntilHalt(left) => State::UntilHalt(left.saturating_add(more)),
        State::Disposed => State::Disposed,
    }
}

fn halted(state: State) -> State
    ensures { result ≡ state_after state Item.Halt }
{
    match state {
        State::Disposed => State::Disposed,
        State::Idle | State::Firing(_) | State::UntilHalt(_) => State::Idle,
    }
}
