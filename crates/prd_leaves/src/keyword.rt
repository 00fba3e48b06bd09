//! Words: those that the grammar spells, those that it leaves out, and any other.
ghost use Rattle.std.specs.Prelude.{◌≡◌, IfOk, IsUtf8};
ghost use Rattle.prd_leaves.specs.Leaves.{is_left_out, word_leaf};

use crate::text_pool::TextPool;
use prd_grammar::Leaf;
use rif_tree::Keyword;
use rif_values::OutOfMemory;

/// The leaf of a word.
///
/// Linear in its length; the bytes of a word that isn't the grammar's are copied once, where the pool doesn't keep
/// an equal one.
///
/// Source: our own (docs/FORMATS.md, "Grammar").
pub(crate) fn word_leaf(pool: &mut TextPool, text: &[u8]) -> Result<Leaf, OutOfMemory>
    requires { IsUtf8 text.now }
    ensures { IfOk result (λ leaf. leaf ≡ word_leaf text.now) }
{
    if let Some(keyword) = Keyword::named(text) {
        return Ok(Leaf::Key(keyword));
    }
    if is_left_out(text) {
        return Ok(Leaf::LeftOut);
    }
    Ok(Leaf::Word(pool.text(text)?))
}

// A word of what the profile leaves out.
fn is_left_out(text: &[u8]) -> bool
    ensures { result ≡ is_left_out text.now }
{
    text == b"Base".as_slice()
        || text == b"Import".as_slice()
        || text == b"Execute".as_slice()
        || text == b"List".as_slice()
}
