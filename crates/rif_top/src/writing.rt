ghost use Rattle.std.specs.Prelude.{◌-◌, ◌<◌, ◌^◌};
ghost use Rattle.rif_script.specs.Faults.{CountsFaults};
ghost use Rattle.rif_top.specs.Writing.{WritesText};

use rif_script::{Failed, Sink};

/// Writes all of a text. Each call on the sink is given all that is left of it.
pub fn write_text<K: Sink>(sink: &mut K, text: &[u8]) -> Result<(), Failed>
    requires { K.faults sink.old < 2 ^ 64 - 1 }
    ensures wrote { WritesText (K.written sink.old) (K.written sink.new) text.now result }
    ensures cause { CountsFaults (K.faults sink.old) (K.faults sink.new) result }
{
    let mut at = 0;
    while at < text.len() {
        let count = sink.give(&text[at..])?;
        at += count;
    }
    Ok(())
}
