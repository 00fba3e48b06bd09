use rif_values::Listed;

/// The kinds of tokens.
///
/// Source: our own (docs/FORMATS.md, "Tokens").
#[derive(Clone, Copy, Debug, PartialEq, Eq)]
pub enum Kind {
    /// A letter and name characters.
    Word,
    /// A word, a colon and name characters, possibly none.
    Curie,
    /// An underscore and a name.
    Local,
    /// A question mark and a name.
    Var,
    /// An integer in decimal.
    Int,
    /// Characters and escapes between quotes.
    Str,
    /// Characters between `<` and `>`.
    Iri,
    /// `(`
    Open,
    /// `)`
    Close,
    /// `[`
    OpenSquare,
    /// `]`
    CloseSquare,
    /// `=`
    Equal,
    /// `#`
    Hash,
    /// `##`
    HashHash,
    /// `->`
    Arrow,
    /// `^^`
    Carets,
}

/// A token of a text: its kind, its span in bytes from 0 (`end` is just past it), and the line and
/// column of its first character, counted from 1, columns in characters.
#[derive(Clone, Copy, Debug, PartialEq, Eq)]
pub struct Token {
    pub kind: Kind,
    pub start: usize,
    pub end: usize,
    pub line: u64,
    pub col: u64,
}

/// The tokens of a text, in order. Contracts see them as that list.
pub type Tokens = Listed<Token>;
