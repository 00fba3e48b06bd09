//! Constants and facts as text.
ghost use Rattle.std.specs.Prelude.{◌≡◌, ◌++◌, OnOk, OnErr};
ghost use Rattle.std.specs.List.{flat_map};
ghost use Rattle.rif_values.specs.Writing.{escaped, const_text, after_space, spaced, fact_text};

use crate::constant::Const;
use crate::fact::Fact;
use crate::out_of_memory::OutOfMemory;
use itoa::Buffer;
use std::alloc::Global;

/// Appends a constant's text. After want of memory `out` is as before. The cost is the text's length.
///
/// Source: our own (docs/FORMATS.md, "Constants and facts").
pub fn write_const(alloc: Global, out: &mut Vec<u8>, value: &Const) -> Result<(), OutOfMemory>
    ensures ok { OnOk result (out.new.items ≡ out.old.items ++ const_text value.now) }
    ensures err { OnErr result (out.new.items ≡ out.old.items) }
{
    let mut text = Vec::new(alloc);
    push_const(&mut text, value)?;
    out.extend_from_slice(text.as_slice())?;
    Ok(())
}

/// Appends a fact's text. After want of memory `out` is as before. The cost is the text's length.
///
/// Source: our own (docs/FORMATS.md, "Constants and facts").
pub fn write_fact(alloc: Global, out: &mut Vec<u8>, fact: &Fact) -> Result<(), OutOfMemory>
    ensures ok { OnOk result (out.new.items ≡ out.old.items ++ fact_text fact.now) }
    ensures err { OnErr result (out.new.items ≡ out.old.items) }
{
    let mut text = Vec::new(alloc);
    push_fact(&mut text, fact)?;
    out.extend_from_slice(text.as_slice())?;
    Ok(())
}

/// Appends a constant's text to a larger text that is in the making. After want of memory a part of it
/// may stand there. The cost is the text's length.
pub fn push_const(out: &mut Vec<u8>, value: &Const) -> Result<(), OutOfMemory>
    ensures { OnOk result (out.new.items ≡ out.old.items ++ const_text value.now) }
{
    let mut number = Buffer::new();
    match value {
        Const::Int(value) => out.extend_from_slice(number.format(*value).as_bytes())?,
        Const::Bool(true) => out.extend_from_slice(b"true")?,
        Const::Bool(false) => out.extend_from_slice(b"false")?,
        Const::Str(text) => {
            out.push(b'"')?;
            push_escaped(out, text.bytes())?;
            out.push(b'"')?;
        }
        Const::Iri(text) => {
            out.push(b'<')?;
            out.extend_from_slice(text.bytes())?;
            out.push(b'>')?;
        }
        Const::Local(text) => {
            out.push(b'_')?;
            out.extend_from_slice(text.bytes())?;
        }
        Const::Fresh(value) => {
            out.push(b'@')?;
            out.extend_from_slice(number.format(*value).as_bytes())?;
        }
    }
    Ok(())
}

/// Appends a fact's text to a larger text that is in the making. After want of memory a part of it may
/// stand there. The cost is the text's length.
pub fn push_fact(out: &mut Vec<u8>, fact: &Fact) -> Result<(), OutOfMemory>
    ensures { OnOk result (out.new.items ≡ out.old.items ++ fact_text fact.now) }
{
    match fact {
        Fact::Atom(predicate, arguments) => {
            push_const(out, predicate)?;
            out.push(b'(')?;
            push_spaced(out, arguments.as_slice())?;
            out.push(b')')?;
        }
        Fact::Frame(object, slot, value) => {
            push_const(out, object)?;
            out.push(b'[')?;
            push_const(out, slot)?;
            out.extend_from_slice(b"->")?;
            push_const(out, value)?;
            out.push(b']')?;
        }
        Fact::Member(object, class) => {
            push_const(out, object)?;
            out.extend_from_slice(b" # ")?;
            push_const(out, class)?;
        }
    }
    Ok(())
}

// Appends the constants with one space between two.
fn push_spaced(out: &mut Vec<u8>, all: &[Const]) -> Result<(), OutOfMemory>
    ensures { OnOk result (out.new.items ≡ out.old.items ++ spaced all.now) }
{
    match all.split_first() {
        None => Ok(()),
        Some((first, rest)) => {
            push_const(out, first)?;
            push_after_spaces(out, rest)
        }
    }
}

// Appends the constants, each behind a space.
fn push_after_spaces(out: &mut Vec<u8>, all: &[Const]) -> Result<(), OutOfMemory>
    ensures { OnOk result (out.new.items ≡ out.old.items ++ flat_map after_space all.now) }
{
    for value in all {
        out.push(b' ')?;
        push_const(out, value)?;
    }
    Ok(())
}

// Appends a string's bytes, with the escapes.
fn push_escaped(out: &mut Vec<u8>, text: &[u8]) -> Result<(), OutOfMemory>
    ensures { OnOk result (out.new.items ≡ out.old.items ++ flat_map escaped text.now) }
{
    for byte in text {
        push_escaped_byte(out, *byte)?;
    }
    Ok(())
}

fn push_escaped_byte(out: &mut Vec<u8>, byte: u8) -> Result<(), OutOfMemory>
    ensures { OnOk result (out.new.items ≡ out.old.items ++ escaped byte) }
{
    match byte {
        b'"' => out.extend_from_slice(b"\\\"")?,
        b'\\' => out.extend_from_slice(b"\\\\")?,
        b'\n' => out.extend_from_slice(b"\\n")?,
        b'\t' => out.extend_from_slice(b"\\t")?,
        b'\r' => out.extend_from_slice(b"\\r")?,
        _ => out.push(byte)?,
    }
    Ok(())
}
