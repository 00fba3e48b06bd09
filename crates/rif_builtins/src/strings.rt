//! The built-in functions and predicates of strings.
ghost use Rattle.std.specs.Prelude.{◌≡◌, ◌+◌, nat_le, length, IfOk, Some, None, if◌then◌else◌};
ghost use Rattle.std.specs.Option.{option_map};
ghost use Rattle.rif_tree.specs.declared.builtin.Func.TheVariants.{Concat, StringLength};
ghost use Rattle.rif_tree.specs.declared.builtin.Pred.TheVariants.{StartsWith, EndsWith, Contains};
ghost use Rattle.rif_builtins.specs.Builtins.{func_value, pred_value, concatenated, concat_of};

use crate::arguments::{one_string, two_strings};
use memchr::memmem;
use rif_tree::{Builtin, Func};
use rif_values::{Const, Integer, OutOfMemory, Text};
use std::alloc::Global;

/// The most bytes that `concat` makes.
pub const MOST_CONCAT_BYTES: usize = 65_536;

/// The strings joined; `None` where there are too few or too many, or their bytes are more than `MOST_CONCAT_BYTES`.
/// It reads and copies them once.
pub fn concat(alloc: Global, arguments: &[Const]) -> Result<Option<Const>, OutOfMemory>
    ensures { IfOk result (λ value. value ≡ func_value Concat arguments.now) }
{
    if !Builtin::Func(Func::Concat).takes(arguments.len() as u64) {
        return Ok(None);
    }
    let Some(length) = concatenated_length(arguments) else {
        return Ok(None);
    };
    match concatenated(alloc, arguments, length)? {
        Some(text) => Ok(Some(Const::Str(text))),
        None => Ok(None),
    }
}

// How many bytes the strings have together; `None` where they are too many.
fn concatenated_length(arguments: &[Const]) -> Option<usize>
    ensures { result ≡ option_map length (concat_of arguments.now) }
{
    let mut total = 0;
    for argument in arguments {
        match argument {
            Const::Str(text) => total = longer(total, text.bytes().len())?,
            _ => return None,
        }
    }
    Some(total)
}

// So many bytes and some more; `None` where they are too many.
fn longer(total: usize, more: usize) -> Option<usize>
    ensures { result ≡ (if nat_le (total + more) MOST_CONCAT_BYTES then Some (total + more) else None) }
{
    let sum = total.checked_add(more)?;
    if sum <= MOST_CONCAT_BYTES {
        Some(sum)
    } else {
        None
    }
}

// The strings joined in a text with room for so many bytes.
fn concatenated(
    alloc: Global,
    arguments: &[Const],
    room: usize,
) -> Result<Option<Text>, OutOfMemory>
    ensures { IfOk result (λ found. found ≡ concatenated arguments.now) }
{
    let mut text = String::with_capacity(alloc, room)?;
    for argument in arguments {
        match argument {
            Const::Str(part) => text.push_str(part.as_str())?,
            _ => return Ok(None),
        }
    }
    Ok(Some(Text::from_string(text)?))
}

/// How many characters a string has. It reads the string once.
pub fn string_length(arguments: &[Const]) -> Option<Const>
    ensures { result ≡ func_value StringLength arguments.now }
{
    match one_string(arguments) {
        Some(text) => Some(Const::Int(text.as_str().chars().count() as Integer)),
        None => None,
    }
}

/// Whether the first string starts with the second.
pub fn starts_with(arguments: &[Const]) -> Option<bool>
    ensures { result ≡ pred_value StartsWith arguments.now }
{
    let (text, part) = two_strings(arguments)?;
    Some(text.starts_with(part))
}

/// Whether the first string ends with the second.
pub fn ends_with(arguments: &[Const]) -> Option<bool>
    ensures { result ≡ pred_value EndsWith arguments.now }
{
    let (text, part) = two_strings(arguments)?;
    Some(text.ends_with(part))
}

/// Whether the second string stands somewhere in the first, in time linear in both.
pub fn contains(arguments: &[Const]) -> Option<bool>
    ensures { result ≡ pred_value Contains arguments.now }
{
    let (text, part) = two_strings(arguments)?;
    Some(memmem::find(text, part).is_some())
}
