/// What stands straight before a token, as far as it tells what the token stands for.
///
/// Source: our own (docs/FORMATS.md, "Grammar" and "Names").
#[derive(Clone, Copy)]
pub enum Behind {
    /// `Prefix` `(`
    Prefix,
    /// `External` `(`
    External,
    /// `^^`
    Carets,
    /// Anything else, or nothing.
    Other,
}
