ghost use Rattle.std.specs.Prelude.{◌≡◌, ◌-◌, ◌<◌, ◌^◌, [], IsOk, Some, length};
ghost use Rattle.std.specs.Io.{ReadsAtMost};
ghost use Rattle.std.specs.Io.KnownBytes.{ReadConsumes};
ghost use Rattle.rif_script.specs.Faults.{CountsFaults};
ghost use Rattle.rif_script.specs.InMemory.{fresh_plan, take_answer, source_after};

use crate::failed::Failed;
use crate::fault_plan::FaultPlan;
use crate::source::Source;
use std::marker::Model;

/// A source in memory.
///
/// Contracts see what is left, the most bytes that one call gives, and the plan of its faults.
#[derive(Drop)]
pub struct MemSource {
    bytes: Vec<u8>,
    /// The bytes before this place were taken.
    at: usize,
    piece: usize,
    plan: FaultPlan,
}

impl Model for MemSource {
    ghost use Rattle.std.specs.Prelude.{◌≤◌, ◌<◌, drop, vec_len};
    ghost use Rattle.rif_script.specs.InMemory.{MemorySource};

    ghost Value = { MemorySource };

    ghost view = { λ source. record {
      left = drop source.at source.bytes.items;
      piece = source.piece;
      plan = source.plan;
    } };

    ghost invariant = { λ source. (source.at ≤ vec_len source.bytes) × (0 < source.piece) };
}

impl MemSource {
    /// A source of these bytes. A call gives at most `piece` of them, and fails where its number,
    /// counted from 1, is in `fail`. The condition is that a piece has at least one byte.
    pub fn new(bytes: Vec<u8>, piece: usize, fail: Vec<u64>) -> MemSource
        requires { 0 < piece }
        ensures { result ≡ record {
          left = bytes.items;
          piece = piece;
          plan = fresh_plan fail.items;
        } }
    {
        MemSource {
            bytes,
            at: 0,
            piece,
            plan: FaultPlan::new(fail),
        }
    }
}

impl Source for MemSource {
    ghost left = { λ source. Some source.left };

    ghost faults = { λ source. source.plan.faults };

    fn take(&mut self, buf: &mut [u8]) -> Result<usize, Failed>
        requires { self.old.plan.faults < 2 ^ 64 - 1 }
        ensures bound { ReadsAtMost result buf.new }
        ensures bytes { ReadConsumes (Some self.old.left) (Some self.new.left) result buf.new }
        ensures cause { CountsFaults self.old.plan.faults self.new.plan.faults result }

        // The exact answer, and what the source is then.
        ensures answer { result ≡ take_answer self.old (length buf.old) }
        ensures after { self.new ≡ source_after self.old (length buf.old) }
        ensures never_fails { self.old.plan.fail ≡ [] → IsOk result }
    {
        self.plan.count_call(false)?;
        let left = self.bytes.len() - self.at;
        let count = self.piece.min(buf.len()).min(left);
        buf[..count].copy_from_slice(&self.bytes[self.at..self.at + count]);
        self.at += count;
        Ok(count)
    }
}
