use rif_values::OutOfMemory;

/// Why a line of a script gives no item.
#[derive(Clone, Copy, Debug)]
pub enum LineFault {
    /// It has none of the forms.
    Bad,
    /// No memory was found.
    OutOfMemory,
}

impl From<OutOfMemory> for LineFault {
    ghost use Rattle.std.specs.Prelude.{◌≡◌};
    ghost use Rattle.rif_script.specs.declared.line_fault.LineFault.TheVariants as variant;

    ghost from_gives = { λ _ fault. fault ≡ variant.OutOfMemory };

    fn from(_: OutOfMemory) -> LineFault {
        LineFault::OutOfMemory
    }
}
