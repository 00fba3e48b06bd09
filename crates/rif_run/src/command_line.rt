ghost use Rattle.std.specs.Prelude.{◌≡◌, codes, IfOk, IsUtf8};

use rif_values::{OutOfMemory, Text};
use std::alloc::Global;
use std::env::{Env, FillError};

/// The words behind the program's name. One that isn't UTF-8 is handed over as `?`, which no command
/// takes.
pub fn words(rt: &impl Env, alloc: Global) -> Result<Vec<Text>, OutOfMemory> {
    let mut words = Vec::new(alloc);
    for place in 1..usize::MAX {
        match word_at(rt, alloc, place)? {
            Some(word) => words.push(word)?,
            None => break,
        }
    }
    Ok(words)
}

/// The word at a place, where the program's name stands at 0; none behind the last.
fn word_at(rt: &impl Env, alloc: Global, place: usize) -> Result<Option<Text>, OutOfMemory> {
    for bits in 8u32..48 {
        let mut bytes = vec![in alloc; 0u8; 1usize << bits]?;
        match rt.arg(place, bytes.as_mut_slice()) {
            Ok(count) => return Ok(Some(text_of(alloc, &bytes[..count])?)),
            Err(FillError::NotPresent) => return Ok(None),
            Err(FillError::TooLong) => {}
        }
    }
    Err(OutOfMemory)
}

fn text_of(alloc: Global, bytes: &[u8]) -> Result<Text, OutOfMemory>
    ensures utf8 { IsUtf8 bytes.now → IfOk result (λ word. word ≡ bytes.now) }
    ensures other { (IsUtf8 bytes.now → ⊥) → IfOk result (λ word. word ≡ codes "?") }
{
    match str::from_utf8(bytes) {
        Ok(word) => Text::from_str(alloc, word),
        Err(_) => Text::from_str(alloc, "?"),
    }
}
