//! The words that the grammar spells.
ghost use Rattle.std.specs.Prelude.{◌≡◌};
ghost use Rattle.rif_tree.specs.Keywords.{keyword_text, keyword_named};

/// All keywords, in the order of the grammar.
pub const KEYWORDS: &[Keyword] = &[
    Keyword::Document,
    Keyword::Prefix,
    Keyword::Group,
    Keyword::Forall,
    Keyword::Such,
    Keyword::That,
    Keyword::If,
    Keyword::Then,
    Keyword::Do,
    Keyword::New,
    Keyword::Assert,
    Keyword::Retract,
    Keyword::Modify,
    Keyword::And,
    Keyword::Or,
    Keyword::Not,
    Keyword::INeg,
    Keyword::Exists,
    Keyword::External,
    Keyword::True,
    Keyword::False,
];

/// A word that the grammar spells.
///
/// Source: our own (docs/FORMATS.md, "Grammar").
#[derive(Clone, Copy)]
pub enum Keyword {
    Document,
    Prefix,
    Group,
    Forall,
    Such,
    That,
    If,
    Then,
    Do,
    New,
    Assert,
    Retract,
    Modify,
    And,
    Or,
    Not,
    INeg,
    Exists,
    External,
    True,
    False,
}

impl Keyword {
    /// Its text, in constant time.
    ///
    /// Source: our own (docs/FORMATS.md, "Grammar").
    pub fn text(self) -> &'static [u8]
        ensures { result.now ≡ keyword_text self }
    {
        match self {
            Keyword::Document => b"Document",
            Keyword::Prefix => b"Prefix",
            Keyword::Group => b"Group",
            Keyword::Forall => b"Forall",
            Keyword::Such => b"such",
            Keyword::That => b"that",
            Keyword::If => b"If",
            Keyword::Then => b"Then",
            Keyword::Do => b"Do",
            Keyword::New => b"New",
            Keyword::Assert => b"Assert",
            Keyword::Retract => b"Retract",
            Keyword::Modify => b"Modify",
            Keyword::And => b"And",
            Keyword::Or => b"Or",
            Keyword::Not => b"Not",
            Keyword::INeg => b"INeg",
            Keyword::Exists => b"Exists",
            Keyword::External => b"External",
            Keyword::True => b"true",
            Keyword::False => b"false",
        }
    }

    /// The keyword of a text; `None` where it is none.
    ///
    /// Linear in the text's length; takes no memory.
    ///
    /// Source: our own (docs/FORMATS.md, "Grammar").
    pub fn named(text: &[u8]) -> Option<Keyword>
        ensures { result ≡ keyword_named text.now }
    {
        for keyword in KEYWORDS {
            if text == keyword.text() {
                return Some(*keyword);
            }
        }
        None
    }
}
