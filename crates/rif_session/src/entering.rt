ghost use Rattle.std.specs.Prelude.{◌≡◌, [], None, OnErr, OnOk, Some};
ghost use Rattle.rif_engine.specs.SoFar.{MayTake};

use rif_engine::Engine;
use rif_values::OutOfMemory;
use session_states::OpenBatch;
use std::alloc::Global;
use std::mem;

/// Enters the entries that are held as a batch, whose act is owed then. After want of memory they are still held, and
/// more can be added.
///
/// It costs what `Engine::take_batch` costs.
pub(crate) fn enter(
    alloc: Global,
    engine: &mut Engine,
    held: &mut OpenBatch,
) -> Result<(), OutOfMemory>
    requires { MayTake engine.old held.old.entries }
    ensures ok { OnOk result (engine.new ≡ record engine.old { owed = Some held.old.entries }) }
    ensures none_held { OnOk result (held.new.entries ≡ []) }
    ensures err { OnErr result (engine.new ≡ engine.old) }
    ensures held { OnErr result (held.new.entries ≡ held.old.entries) }
{
    let batch = mem::replace(held, OpenBatch::new(alloc)).close();
    match engine.take_batch(alloc, batch) {
        Ok(()) => Ok(()),
        Err((batch, none)) => {
            *held = OpenBatch::reopen(batch);
            Err(none)
        }
    }
}
