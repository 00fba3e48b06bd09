use rif_engine::Engine;

/// Who is told of a session's steps, and may hold them up: a test, for instance.
pub trait Gate {
    /// A pass is about to add a turn, whose entries are taken from the list. The engine is as it is then.
    fn between(&self, engine: &Engine);

    /// A push of this client was answered, accepted or not.
    fn answered(&self, _client: u32) {}
}

/// Nobody is told.
pub struct NoGate;

impl Gate for NoGate {
    fn between(&self, _engine: &Engine) {}
}
