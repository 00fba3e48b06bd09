//! Words that are keywords but for their case.
use refusal_lines::push_quoted;
use rif_tree::{KEYWORDS, Keyword};
use rif_values::OutOfMemory;
use std::alloc::Global;

/// What may be meant by a word that is a keyword in other case.
pub fn hint_of_keyword(alloc: Global, word: &[u8]) -> Result<Option<Vec<u8>>, OutOfMemory> {
    match keyword_like(word) {
        Some(keyword) => {
            let mut out = Vec::new(alloc);
            out.extend_from_slice(b"did you mean ")?;
            push_quoted(&mut out, keyword.text())?;
            out.push(b'?')?;
            Ok(Some(out))
        }
        None => Ok(None),
    }
}

fn keyword_like(word: &[u8]) -> Option<Keyword> {
    for keyword in KEYWORDS {
        if keyword.text().eq_ignore_ascii_case(word) {
            return Some(*keyword);
        }
    }
    None
}
