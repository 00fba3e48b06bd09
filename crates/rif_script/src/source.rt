ghost use Rattle.std.specs.Prelude.{◌-◌, ◌<◌, ◌^◌};
ghost use Rattle.std.specs.Io.{ReadsAtMost};
ghost use Rattle.std.specs.Io.KnownBytes.{ReadConsumes};
ghost use Rattle.rif_script.specs.Faults.{CountsFaults};

use crate::failed::Failed;

/// Where bytes come from.
///
/// A source may tell what is left in it; then it goes on telling it. One that tells nothing, as a
/// standard stream, is bound by its lengths and its count of faults alone.
pub trait Source {
    ghost use Rattle.std.specs.Prelude.{ℕ, List};
    ghost use Rattle.std.specs.declared.option.Option.{Option};

    /// What is left, where the source tells it.
    ghost left: { Self → Option (List ℕ) };

    /// How many calls have failed.
    ghost faults: { Self → ℕ };

    /// Puts the next bytes at the buffer's front, and answers how many. It answers 0 for a buffer that
    /// isn't empty at the end alone. What the rest of the buffer has then is left open.
    /// The condition is that fewer than 2^64 - 1 calls have failed.
    fn take(&mut self, buf: &mut [u8]) -> Result<usize, Failed>
        requires { faults self.old < 2 ^ 64 - 1 }
        ensures bound { ReadsAtMost result buf.new }
        ensures bytes { ReadConsumes (left self.old) (left self.new) result buf.new }
        ensures cause { CountsFaults (faults self.old) (faults self.new) result };
}
