//! Things that are counted from 1, as rules and turns are.
ghost use Rattle.std.specs.Prelude.{◌≡◌};
ghost use Rattle.std.specs.Option.{option_copied};
ghost use Rattle.rif_values.specs.Numbers.{nth_of};

/// The item of this number, counted from 1, or None where there is none, in constant time.
pub fn nth<T>(items: &[T], number: u32) -> Option<&T>
    ensures { option_copied result ≡ nth_of items.now number }
{
    if number == 0 {
        return None;
    }
    items.get(number as usize - 1)
}
