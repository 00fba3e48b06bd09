ghost use Rattle.std.specs.Prelude.{◌≡◌, ◌-◌, ◌<◌, ◌^◌, ◌++◌, [], IfOk, IsTrue, MatchOption, OnErr, false, take};
ghost use Rattle.std.specs.Prelude.{true};
ghost use Rattle.std.specs.Io.{ReadsAtMost};
ghost use Rattle.std.specs.Io.KnownBytes.{ReadConsumes};
ghost use Rattle.rif_script.specs.Faults.{CountsFaults};

use rif_script::{Failed, Source};
use std::alloc::Global;

/// A source that keeps what was taken of it, so that a refusal can be explained. Where no memory is found
/// for that, it keeps nothing more, and is the same source all the same.
#[derive(Drop)]
pub struct Kept<S> {
    source: S,
    bytes: Vec<u8>,
    /// Whether the bytes are all that was taken: memory was found for it each time.
    is_whole: bool,
}

impl<S: Source> Kept<S> {
    /// The same source, of which nothing was taken yet. It takes no memory.
    pub fn new(alloc: Global, source: S) -> Kept<S>
        ensures left { ⟦<Kept<S> as Source>⟧.left result ≡ S.left source }
        ensures faults { ⟦<Kept<S> as Source>⟧.faults result ≡ S.faults source }
        ensures whole { result.is_whole ≡ true }
        ensures bytes { result.bytes.items ≡ [] }
    {
        Kept {
            source,
            bytes: Vec::new(alloc),
            is_whole: true,
        }
    }

    /// All that was taken, and None exactly where some of it is lost, since no memory was found for it.
    pub fn bytes(&self) -> Option<&[u8]>
        ensures { MatchOption result (self.now.is_whole ≡ false)
            (λ bytes. IsTrue self.now.is_whole × (bytes.now ≡ self.now.bytes.items)) }
    {
        if self.is_whole {
            Some(self.bytes.as_slice())
        } else {
            None
        }
    }
}

impl<S: Source> Source for Kept<S> {
    ghost left = { λ kept. S.left kept.source };

    ghost faults = { λ kept. S.faults kept.source };

    fn take(&mut self, buf: &mut [u8]) -> Result<usize, Failed>
        requires { S.faults self.old.source < 2 ^ 64 - 1 }
        ensures bound { ReadsAtMost result buf.new }
        ensures bytes { ReadConsumes (S.left self.old.source) (S.left self.new.source) result buf.new }
        ensures cause { CountsFaults (S.faults self.old.source) (S.faults self.new.source) result }

        // What was taken comes to what was kept; and where all that was taken is kept, it was before too.
        ensures keeps { IfOk result (λ count. IsTrue self.new.is_whole → IsTrue self.old.is_whole
            × (self.new.bytes.items ≡ self.old.bytes.items ++ take count buf.new)) }
        ensures keeps_on { OnErr result
            ((self.new.is_whole ≡ self.old.is_whole) × (self.new.bytes.items ≡ self.old.bytes.items)) }
    {
        let count = self.source.take(buf)?;
        if self.is_whole {
            self.is_whole = self.bytes.extend_from_slice(&buf[..count]).is_ok();
        }
        Ok(count)
    }
}
