//! What a seat and the taker know of the queue. No value of a view is made.
use session_states::Entry;
use std::collections::LinkedList;

pub struct ClientView {
    pub client: u32,
    pub accepted: LinkedList<Entry>,
}

pub struct TakerView {
    pub taken: LinkedList<Entry>,
    pub seated: u32,
    // The views of the seats that were given back.
    pub joined: LinkedList<ClientView>,
}

pub enum View {
    Client(ClientView),
    Taker(TakerView),
    Spent,
}
