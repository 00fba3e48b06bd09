//! The key by which the facts that may match a pattern are found.
ghost use Rattle.std.specs.Prelude.{◌≡◌, IfOk};
ghost use Rattle.std.specs.declared.option.Option.{Option};
ghost use Rattle.rif_values.specs.declared.constant.Const.{Const};
ghost use Rattle.rif_match.specs.Narrowing.{IsKeyFor, frame_key, known, member_key};

use rif_builtins::Pattern;
use rif_facts::Key;
use rif_tree::Term;
use rif_values::{Binding, Const, OutOfMemory};

/// The narrowest key that names each fact which the pattern matches under the row, as far as the pattern's constants
/// and the row's values determine one: object and slot, object, predicate, slot, class, and only then all of a kind.
/// A function term determines none.
pub fn narrowest_key(pattern: &Pattern, row: &Binding) -> Result<Key, OutOfMemory>
    ensures { IfOk result (IsKeyFor pattern.now row.now) }
{
    match pattern {
        Pattern::Atom(predicate, _) => Ok(Key::Predicate(predicate.copy()?)),
        Pattern::Slot(object, slot, _) => {
            let object = known(object, row)?;
            let slot = known(slot, row)?;
            Ok(frame_key(object, slot))
        }
        Pattern::Member(object, class) => {
            let object = known(object, row)?;
            let class = known(class, row)?;
            Ok(member_key(object, class))
        }
    }
}

fn frame_key(object: Option<Const>, slot: Option<Const>) -> Key
    ensures { result ≡ frame_key object slot }
{
    match object {
        Some(object) => match slot {
            Some(slot) => Key::ObjectSlot(object, slot),
            None => Key::Object(object),
        },
        None => match slot {
            Some(slot) => Key::Slot(slot),
            None => Key::Frames,
        },
    }
}

fn member_key(object: Option<Const>, class: Option<Const>) -> Key
    ensures { result ≡ member_key object class }
{
    match object {
        Some(object) => Key::Object(object),
        None => match class {
            Some(class) => Key::Class(class),
            None => Key::Members,
        },
    }
}

// What a constant or a variable with a value must be.
fn known(term: &Term, row: &Binding) -> Result<Option<Const>, OutOfMemory>
    ensures { IfOk result (λ found. found ≡ known row.now term.now) }
{
    match term {
        Term::Const(constant) => Ok(Some(constant.copy()?)),
        Term::Var(var) => match row.get(*var) {
            Some(held) => Ok(Some(held.copy()?)),
            None => Ok(None),
        },
        Term::Call(..) => Ok(None),
    }
}
