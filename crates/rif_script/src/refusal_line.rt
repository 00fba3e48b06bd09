ghost use Rattle.std.specs.Prelude.{◌≡◌, ◌++◌, IfOk, OnOk, OnErr, decimal};
ghost use Rattle.rif_script.specs.RefusalLine.{counted_word, place_text, variable_text, refusal_fields, refusal_line};

use itoa::Buffer;
use rif_refusals::{Counted, Refusal};
use rif_values::{OutOfMemory, Text};
use std::alloc::Global;

/// Puts the line of a refused input at the end of `out`, with its line feed: `refused`, the refusal's
/// number, and the place or the rule that it names. After want of memory `out` is as before.
/// The cost is the line's length; the line is made apart before it is put there.
///
/// Source: our own (docs/FORMATS.md, "Refusals").
pub fn write_refusal(alloc: Global, out: &mut Vec<u8>, refusal: &Refusal) -> Result<(), OutOfMemory>
    ensures ok { OnOk result (out.new.items ≡ out.old.items ++ refusal_line refusal.now) }
    ensures err { OnErr result (out.new.items ≡ out.old.items) }
{
    let line = line_of(alloc, refusal)?;
    out.extend_from_slice(line.as_slice())?;
    Ok(())
}

fn line_of(alloc: Global, refusal: &Refusal) -> Result<Vec<u8>, OutOfMemory>
    ensures { IfOk result (λ line. line.items ≡ refusal_line refusal.now) }
{
    let mut line = Vec::new(alloc);
    push_number(&mut line, b"refused ", u64::from(refusal.number()))?;
    push_fields(&mut line, refusal)?;
    line.push(b'\n')?;
    Ok(line)
}

fn push_fields(out: &mut Vec<u8>, refusal: &Refusal) -> Result<(), OutOfMemory>
    ensures { OnOk result (out.new.items ≡ out.old.items ++ refusal_fields refusal.now) }
{
    match refusal {
        Refusal::InputTooLong => Ok(()),
        Refusal::NotUtf8 { at } => push_number(out, b" at ", *at),
        Refusal::BadToken { line, col }
        | Refusal::Expected { line, col }
        | Refusal::TooDeep { line, col }
        | Refusal::IntRange { line, col }
        | Refusal::UnknownPrefix { line, col }
        | Refusal::LeftOut { line, col }
        | Refusal::UnknownBuiltin { line, col }
        | Refusal::Arity { line, col }
        | Refusal::BadStrategy { line, col }
        | Refusal::PriorityRange { line, col } => push_place(out, *line, *col),
        Refusal::TooMany { what, line, col } => {
            out.extend_from_slice(word_of(*what))?;
            push_place(out, *line, *col)
        }
        Refusal::Undeclared { rule, name }
        | Refusal::DeclaredTwice { rule, name }
        | Refusal::Unsafe { rule, name } => push_variable(out, *rule, name),
        Refusal::BadLine { line }
        | Refusal::BudgetTooLarge { line }
        | Refusal::TooManyItems { line }
        | Refusal::TooManyClients { line } => push_number(out, b" line ", *line),
        Refusal::TooManyBranches { rule } => push_number(out, b" rule ", u64::from(*rule)),
    }
}

fn word_of(what: Counted) -> &'static [u8]
    ensures { result.now ≡ counted_word what }
{
    match what {
        Counted::Rules => b" rules",
        Counted::Variables => b" variables",
        Counted::Patterns => b" patterns",
        Counted::Actions => b" actions",
    }
}

fn push_place(out: &mut Vec<u8>, line: u64, col: u64) -> Result<(), OutOfMemory>
    ensures { OnOk result (out.new.items ≡ out.old.items ++ place_text line col) }
{
    push_number(out, b" line ", line)?;
    push_number(out, b" col ", col)
}

fn push_variable(out: &mut Vec<u8>, rule: u32, name: &Text) -> Result<(), OutOfMemory>
    ensures { OnOk result (out.new.items ≡ out.old.items ++ variable_text rule name.now) }
{
    push_number(out, b" rule ", u64::from(rule))?;
    out.extend_from_slice(b" var ?")?;
    out.extend_from_slice(name.bytes())?;
    Ok(())
}

fn push_number(out: &mut Vec<u8>, label: &[u8], number: u64) -> Result<(), OutOfMemory>
    ensures { OnOk result (out.new.items ≡ out.old.items ++ label.now ++ decimal number) }
{
    let mut digits = Buffer::new();
    out.extend_from_slice(label)?;
    out.extend_from_slice(digits.format(number).as_bytes())?;
    Ok(())
}
