//! Laws of the definitions.
ghost use Rattle.prd_canonical.specs.ReadBack.{CanonicalIsReadBack};
ghost use Rattle.prd_canonical.specs.Separate.{CanonicalIsSeparate};

/// Law: the canonical text of a document that was read is read back as the same document, without prefixes, or it is
/// refused, where it is longer than an input may be, or at a bracket in it that stands deeper than one may.
pub fn canonical_is_read_back()
    ensures { CanonicalIsReadBack }
{}

/// Law: the canonical text of a document that was read is its tokens with gaps behind them, and each token ends where
/// it is written to end. So it has no annotation, and a line feed in it is a gap.
pub fn canonical_is_separate()
    ensures { CanonicalIsSeparate }
{}
