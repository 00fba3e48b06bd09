//! The lines of items, as clients write them and as a run shows them.
ghost use Rattle.std.specs.Prelude.{◌≡◌, ◌++◌, OnOk, decimal};
ghost use Rattle.std.specs.List.{flat_map};
ghost use Rattle.rif_tree.specs.Rules.{name_of};
ghost use Rattle.rif_script.specs.Lines.{change_text, item_text, entry_text, entry_line};

use itoa::Buffer;
use rif_values::{Change, Const, OutOfMemory, Text, push_const, push_fact};
use session_states::{Entry, Item};

/// Appends one line for each entry: the word, the client's name and the item. After want of memory a part
/// of them may stand there. A client's name is found by its number.
///
/// Source: our own (docs/FORMATS.md, "The trace").
pub fn push_entry_lines(
    out: &mut Vec<u8>,
    word: &[u8],
    names: &[Text],
    entries: &[Entry],
) -> Result<(), OutOfMemory>
    ensures { OnOk result (out.new.items ≡ out.old.items ++ flat_map (entry_line word.now names.now) entries.now) }
{
    for entry in entries {
        out.extend_from_slice(word)?;
        out.push(b' ')?;
        push_entry(out, names, entry)?;
        out.push(b'\n')?;
    }
    Ok(())
}

fn push_entry(out: &mut Vec<u8>, names: &[Text], entry: &Entry) -> Result<(), OutOfMemory>
    ensures { OnOk result (out.new.items ≡ out.old.items ++ entry_text names.now entry.now) }
{
    push_name(out, names, entry.client)?;
    out.push(b' ')?;
    push_item(out, &entry.item)
}

/// Appends the name at a place, which is found in constant time, and nothing where there is none.
pub fn push_name(out: &mut Vec<u8>, names: &[Text], place: u32) -> Result<(), OutOfMemory>
    ensures { OnOk result (out.new.items ≡ out.old.items ++ name_of names.now place) }
{
    match names.get(place as usize) {
        Some(name) => Ok(out.extend_from_slice(name.bytes())?),
        None => Ok(()),
    }
}

fn push_item(out: &mut Vec<u8>, item: &Item) -> Result<(), OutOfMemory>
    ensures { OnOk result (out.new.items ≡ out.old.items ++ item_text item.now) }
{
    match item {
        Item::Change(change) => push_change(out, change)?,
        Item::Fire(budget) => {
            out.extend_from_slice(b"fire ")?;
            push_number(out, *budget)?;
        }
        Item::Until(budget) => {
            out.extend_from_slice(b"until ")?;
            push_number(out, *budget)?;
        }
        Item::Halt => out.extend_from_slice(b"halt")?,
        Item::Dispose => out.extend_from_slice(b"dispose")?,
    }
    Ok(())
}

fn push_change(out: &mut Vec<u8>, change: &Change) -> Result<(), OutOfMemory>
    ensures { OnOk result (out.new.items ≡ out.old.items ++ change_text change.now) }
{
    match change {
        Change::Assert(fact) => {
            out.extend_from_slice(b"assert ")?;
            push_fact(out, fact)
        }
        Change::Retract(fact) => {
            out.extend_from_slice(b"retract ")?;
            push_fact(out, fact)
        }
        Change::RetractSlot(object, slot) => {
            out.extend_from_slice(b"retract ")?;
            push_const(out, object)?;
            out.push(b' ')?;
            push_const(out, slot)
        }
        Change::RetractObject(object) => {
            out.extend_from_slice(b"retract ")?;
            push_const(out, object)
        }
        Change::Modify(object, slot, value) => push_modify(out, object, slot, value),
    }
}

fn push_modify(
    out: &mut Vec<u8>,
    object: &Const,
    slot: &Const,
    value: &Const,
) -> Result<(), OutOfMemory>
    ensures { OnOk result
        (out.new.items ≡ out.old.items ++ change_text (Change.Modify object.now slot.now value.now)) }
{
    out.extend_from_slice(b"modify ")?;
    push_const(out, object)?;
    out.push(b'[')?;
    push_const(out, slot)?;
    out.extend_from_slice(b"->")?;
    push_const(out, value)?;
    out.push(b']')?;
    Ok(())
}

/// Appends a number in decimal.
pub fn push_number(out: &mut Vec<u8>, number: u64) -> Result<(), OutOfMemory>
    ensures { OnOk result (out.new.items ≡ out.old.items ++ decimal number) }
{
    out.extend_from_slice(Buffer::new().format(number).as_bytes())?;
    Ok(())
}
