//! The texts of leaves: what makes them, and what is kept of those that were made before.
ghost use Rattle.std.specs.Prelude.{◌≡◌, ◌++◌, IfOk, IsUtf8, OnOk};

use crate::literal::{has_escape, unescape};
use rif_values::{OutOfMemory, Text};
use std::alloc::Global;

// How many texts are kept, each in the place that its bytes lead to.
const PLACES: usize = 1024;

// The longest text that is kept, in bytes.
const LONGEST_KEPT: usize = 128;

/// What makes the texts of leaves. Names come again, in a document and in the lines of a script; so it keeps texts
/// that it made, and an equal one shares their bytes. What it keeps changes no answer, so no clause speaks of it.
///
/// It has 1,024 places of 16 bytes from the start, and in each the newest text of at most 128 bytes that leads to
/// it, which lives as long as the pool. Beside them it has a buffer, in which the IRI of a CURIE or a string with
/// escapes is put together: it takes memory as the longest one so far needs it.
#[derive(Drop)]
pub struct TextPool {
    alloc: Global,
    kept: Vec<Option<Text>>,
    buffer: Vec<u8>,
}

impl TextPool {
    ghost use Rattle.std.specs.Prelude.{◌≡◌, ◌++◌, IfOk, IsUtf8};
    ghost use Rattle.prd_leaves.specs.Literals.{unescaped};

    /// A pool that keeps no text yet. It takes memory for its places, and none for its buffer.
    pub fn new(alloc: Global) -> Result<TextPool, OutOfMemory> {
        let mut kept = Vec::with_capacity(alloc, PLACES)?;
        for _ in 0..PLACES {
            kept.push(None)?;
        }
        Ok(TextPool {
            alloc,
            kept,
            buffer: Vec::new(alloc),
        })
    }

    /// The allocator that gives memory for the texts.
    pub fn alloc(&self) -> Global {
        self.alloc
    }

    /// The text of these bytes. It shares those of an equal text that is kept, and else copies them.
    ///
    /// Linear in their number.
    pub(crate) fn text(&mut self, bytes: &[u8]) -> Result<Text, OutOfMemory>
        requires { IsUtf8 bytes.now }
        ensures { IfOk result (λ text. text ≡ bytes.now) }
    {
        text_among(self.alloc, &mut self.kept, bytes)
    }

    /// The text of two parts, of which the second stands straight behind the first. It is put together in the
    /// buffer, and shares the bytes of an equal text that is kept, or else copies them.
    ///
    /// Linear in its length.
    pub(crate) fn joined(&mut self, first: &[u8], second: &[u8]) -> Result<Text, OutOfMemory>
        requires { IsUtf8 (first.now ++ second.now) }
        ensures { IfOk result (λ text. text ≡ first.now ++ second.now) }
    {
        join(&mut self.buffer, first, second)?;
        text_among(self.alloc, &mut self.kept, self.buffer.as_slice())
    }

    /// The bytes of two parts, in the buffer: no text is made of them.
    ///
    /// Linear in their number.
    pub(crate) fn joined_bytes(&mut self, first: &[u8], second: &[u8]) -> Result<&[u8], OutOfMemory>
        ensures { IfOk result (λ whole. whole.now ≡ first.now ++ second.now) }
    {
        join(&mut self.buffer, first, second)?;
        Ok(self.buffer.as_slice())
    }

    /// The text of a string, with its escapes undone. Where there are some that is done in the buffer; it shares the
    /// bytes of an equal text that is kept, or else copies them.
    ///
    /// Linear in the text's length.
    ///
    /// Source: our own (docs/FORMATS.md, "Tokens").
    pub(crate) fn unescaped(&mut self, text: &[u8]) -> Result<Text, OutOfMemory>
        requires { IsUtf8 text.now }
        ensures { IfOk result (λ made. made ≡ unescaped text.now) }
    {
        if !has_escape(text) {
            return self.text(text);
        }
        unescape(&mut self.buffer, text)?;
        text_among(self.alloc, &mut self.kept, self.buffer.as_slice())
    }
}

// Puts two parts into the buffer, in place of what it has.
fn join(buffer: &mut Vec<u8>, first: &[u8], second: &[u8]) -> Result<(), OutOfMemory>
    ensures { OnOk result (buffer.new.items ≡ first.now ++ second.now) }
{
    buffer.clear();
    buffer.extend_from_slice(first)?;
    buffer.extend_from_slice(second)?;
    Ok(())
}

// The text of these bytes, which is kept if it is short enough.
fn text_among(
    alloc: Global,
    kept: &mut Vec<Option<Text>>,
    bytes: &[u8],
) -> Result<Text, OutOfMemory>
    requires { IsUtf8 bytes.now }
    ensures { IfOk result (λ text. text ≡ bytes.now) }
{
    if LONGEST_KEPT < bytes.len() {
        return Text::from_bytes(alloc, bytes);
    }
    match kept.get_mut(place_of(bytes)) {
        None => Text::from_bytes(alloc, bytes),
        Some(place) => text_kept(alloc, place, bytes),
    }
}

// The text of these bytes, which is kept at the place from then on.
fn text_kept(alloc: Global, place: &mut Option<Text>, bytes: &[u8]) -> Result<Text, OutOfMemory>
    requires { IsUtf8 bytes.now }
    ensures { IfOk result (λ text. text ≡ bytes.now) }
{
    match place {
        Some(text) if text.bytes() == bytes => text.copy(),
        _ => {
            let text = Text::from_bytes(alloc, bytes)?;
            *place = Some(text.copy()?);
            Ok(text)
        }
    }
}

// The place that bytes lead to: their FNV-1a hash, cut to the number of places.
fn place_of(bytes: &[u8]) -> usize {
    let mut hash = 2_166_136_261u32;
    for byte in bytes {
        hash = (hash ^ u32::from(*byte)).wrapping_mul(16_777_619);
    }
    hash as usize & (PLACES - 1)
}
