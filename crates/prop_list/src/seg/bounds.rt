//! Threads may share the list, and its seats and taker may be sent.
use crate::Propagation;
use crate::seg::seats::List;

fn wants_shared<L: Propagation + Sync + Send>(_list: &L)
where
    L::Seat: Send + Drop,
    L::Taker: Send + Drop,
{}

fn is_shared(list: &List) {
    wants_shared::<List>(list)
}
