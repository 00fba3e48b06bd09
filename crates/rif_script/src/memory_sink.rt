ghost use Rattle.std.specs.Prelude.{◌≡◌, ◌-◌, ◌<◌, ◌^◌, [], IfOk, IsOk, Some, length};
ghost use Rattle.std.specs.Io.{WritesAtMost};
ghost use Rattle.std.specs.Io.KnownBytes.{WriteAppends};
ghost use Rattle.rif_script.specs.Faults.{CountsFaults};
ghost use Rattle.rif_script.specs.InMemory.{fresh_plan, give_answer, sink_after};

use crate::failed::Failed;
use crate::fault_plan::FaultPlan;
use crate::sink::Sink;
use rif_values::OutOfMemory;
use std::alloc::Global;
use std::marker::Model;

/// A sink in memory.
///
/// Contracts see what was written, the room that is left, the most bytes that one call takes, and the
/// plan of its faults.
#[derive(Drop)]
pub struct MemSink {
    written: Vec<u8>,
    room: usize,
    piece: usize,
    plan: FaultPlan,
}

impl Model for MemSink {
    ghost use Rattle.std.specs.Prelude.{◌+◌, ◌≤◌, ◌<◌, vec_len, vec_capacity};
    ghost use Rattle.rif_script.specs.InMemory.{MemorySink};

    ghost Value = { MemorySink };

    ghost view = { λ sink. record {
      written = sink.written.items;
      room = sink.room;
      piece = sink.piece;
      plan = sink.plan;
    } };

    ghost invariant = { λ sink.
        (vec_len sink.written + sink.room ≤ vec_capacity sink.written) × (0 < sink.piece) };
}

impl MemSink {
    /// A sink with room for `room` bytes, for which it takes the memory now. A call takes at most
    /// `piece` bytes, and fails where its number, counted from 1, is in `fail`, or where no room is left.
    /// The condition is that a piece has at least one byte.
    pub fn new(
        alloc: Global,
        room: usize,
        piece: usize,
        fail: Vec<u64>,
    ) -> Result<MemSink, OutOfMemory>
        requires { 0 < piece }
        ensures { IfOk result (λ sink. sink ≡ record {
          written = [];
          room = room;
          piece = piece;
          plan = fresh_plan fail.items;
        }) }
    {
        Ok(MemSink {
            written: Vec::with_capacity(alloc, room)?,
            room,
            piece,
            plan: FaultPlan::new(fail),
        })
    }

    /// What was written, in constant time.
    pub fn bytes(&self) -> &[u8]
        ensures { result.now ≡ self.now.written }
    {
        self.written.as_slice()
    }
}

impl Sink for MemSink {
    ghost written = { λ sink. Some sink.written };

    ghost faults = { λ sink. sink.plan.faults };

    fn give(&mut self, piece: &[u8]) -> Result<usize, Failed>
        requires { self.old.plan.faults < 2 ^ 64 - 1 }
        ensures bound { WritesAtMost result piece.now }
        ensures bytes { WriteAppends (Some self.old.written) (Some self.new.written) result piece.now }
        ensures progress { 0 < length piece.now → IfOk result (λ count. 0 < count) }
        ensures cause { CountsFaults self.old.plan.faults self.new.plan.faults result }

        // The exact answer, and what the sink is then.
        ensures answer { result ≡ give_answer self.old piece.now }
        ensures after { self.new ≡ sink_after self.old piece.now }
        ensures never_fails { self.old.plan.fail ≡ [] → 0 < self.old.room → IsOk result }
    {
        self.plan.count_call(self.room == 0 && !piece.is_empty())?;
        let count = self.piece.min(piece.len()).min(self.room);
        match self.written.extend_from_slice(&piece[..count]) {
            Ok(()) => {}
            Err(_) => unreachable!(),
        }
        self.room -= count;
        Ok(count)
    }
}
