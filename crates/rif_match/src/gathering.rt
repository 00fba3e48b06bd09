//! Rows put at the end of a list, where there is one to put.
ghost use Rattle.std.specs.Prelude.{◌≡◌, ◌++◌, [], ◌∷◌, OnOk, if◌then◌else◌};
ghost use Rattle.std.specs.Option.{option_to_list};

use rif_values::{Binding, OutOfMemory};

/// Puts a row that was found at the end.
pub fn push_found(all: &mut Vec<Binding>, found: Option<Binding>) -> Result<(), OutOfMemory>
    ensures { OnOk result (all.new.items ≡ all.old.items ++ option_to_list found) }
{
    match found {
        Some(row) => Ok(all.push(row)?),
        None => Ok(()),
    }
}

/// Puts a copy of a row at the end, where it is kept.
pub fn push_kept(all: &mut Vec<Binding>, row: &Binding, kept: bool) -> Result<(), OutOfMemory>
    ensures { OnOk result (all.new.items ≡ all.old.items ++ (if kept then row.now ∷ [] else [])) }
{
    if kept {
        all.push(row.copy()?)?;
    }
    Ok(())
}
