ghost use Rattle.std.specs.Prelude.{◌≡◌, ◌+◌, IfOk};

use atomic_table::{Play, Seat, Shared, Table, TableRule};
use rif_values::OutOfMemory;
use std::alloc::Global;

/// What contracts see of a tally. No value of it is made.
pub struct Count {
    pub number: u64,
}

struct AnyNumber;

impl TableRule<(), Count, ()> for AnyNumber {
    ghost holds = { λ _ s. Unit {0} };

    ghost first = { λ _. record { number = 0 } };
}

struct Rises;

impl Play<(), Count> for Rises {
    ghost use Rattle.std.specs.Prelude.{◌≡◌};
    ghost use Rattle.prop_list.specs.Tallies.{raised};

    ghost then = { λ s me n now. now ≡ (raised me.0, me.1) };
}

/// A number that contracts see and the program doesn't keep: it rises by one at each `rise`, without end, and can't
/// change else.
///
/// It is the view of a table of one word whose only step is a load.
pub struct Tally {
    table: Table<(), Count, (), AnyNumber, Global>,
    seat: Seat<(), Count>,
    pub ghost own: { (seat.table_id ≡ table.shared.table_id) × (table.shared.table_id.words ≡ 1) },
}

impl Drop for Tally {
    fn drop(self) {
        let Tally { table: _, seat: _ } = self;
    }
}

impl Tally {
    /// A tally at 0.
    pub fn new(alloc: Global) -> Result<Tally, OutOfMemory>
        ensures { IfOk result (λ tally. tally.seat.me.0.number ≡ 0) }
    {
        let (table, seat) = Table::of_words(alloc, &[0], &())?;
        Ok(Tally { table, seat })
    }

    /// Raises it by one, without memory.
    pub fn rise(&mut self)
        ensures { self.new.seat.me.0.number ≡ self.old.seat.me.0.number + 1 }
    {
        let table = &self.table;
        raise(&table.shared, &mut self.seat)
    }
}

fn raise(shared: &Shared<(), Count, (), AnyNumber>, seat: &mut Seat<(), Count>)
    requires { (seat.old.table_id ≡ shared.now.table_id) × (shared.now.table_id.words ≡ 1) }
    ensures { (seat.new.table_id ≡ seat.old.table_id) × (seat.new.me.0.number ≡ seat.old.me.0.number + 1) }
{
    shared.load::<Rises>(seat, 0);
}
