ghost use Rattle.std.specs.Prelude.{◌-◌, ◌<◌, ◌^◌, IfOk, length};
ghost use Rattle.std.specs.Io.{WritesAtMost};
ghost use Rattle.std.specs.Io.KnownBytes.{WriteAppends};
ghost use Rattle.rif_script.specs.Faults.{CountsFaults};

use crate::failed::Failed;

/// Where bytes go to.
///
/// A sink may tell what was written to it; then it goes on telling it. One that tells nothing, as a
/// standard stream, is bound by its lengths and its count of faults alone.
pub trait Sink {
    ghost use Rattle.std.specs.Prelude.{ℕ, List};
    ghost use Rattle.std.specs.declared.option.Option.{Option};

    /// What was written, where the sink tells it.
    ghost written: { Self → Option (List ℕ) };

    /// How many calls have failed.
    ghost faults: { Self → ℕ };

    /// Writes the piece's first bytes, and answers how many. It is at least one, unless the piece is empty.
    /// The condition is that fewer than 2^64 - 1 calls have failed.
    fn give(&mut self, piece: &[u8]) -> Result<usize, Failed>
        requires { faults self.old < 2 ^ 64 - 1 }
        ensures bound { WritesAtMost result piece.now }
        ensures bytes { WriteAppends (written self.old) (written self.new) result piece.now }
        ensures progress { 0 < length piece.now → IfOk result (λ count. 0 < count) }
        ensures cause { CountsFaults (faults self.old) (faults self.new) result };
}
