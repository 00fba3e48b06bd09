/// What the program can be told to do with a job.
///
/// Source: our own (docs/FORMATS.md, "Words").
#[derive(Clone, Copy)]
pub enum Command {
    /// To write its document in canonical text.
    Check,
    /// To run it.
    Run,
}
