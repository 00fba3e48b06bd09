//! What comes before what has still to come.
ghost use Rattle.std.specs.Prelude.{◌≡◌, ◌++◌, ◌∷◌, true, IfOk};
ghost use Rattle.prd_recognition.specs.Following.{pairs_next};

use crate::want::Want;
use rif_values::OutOfMemory;
use std::collections::VecDeque;

/// This comes before what has still to come. The answer is true.
pub fn put(stack: &mut VecDeque<Want>, want: Want) -> Result<bool, OutOfMemory>
    ensures { IfOk result (λ can. (can ≡ true) × (stack.new.items ≡ want ∷ stack.old.items)) }
{
    stack.push_front(want)?;
    Ok(true)
}

/// Two come before it.
pub fn put_two(stack: &mut VecDeque<Want>, first: Want, second: Want) -> Result<bool, OutOfMemory>
    ensures { IfOk result (λ can. (can ≡ true) × (stack.new.items ≡ first ∷ second ∷ stack.old.items)) }
{
    put(stack, second)?;
    put(stack, first)
}

/// Three come before it.
pub fn put_three(
    stack: &mut VecDeque<Want>,
    first: Want,
    second: Want,
    third: Want,
) -> Result<bool, OutOfMemory>
    ensures { IfOk result (λ can. (can ≡ true) × (stack.new.items ≡ first ∷ second ∷ third ∷ stack.old.items)) }
{
    put_two(stack, second, third)?;
    put(stack, first)
}

/// Pairs and their end come before it.
pub fn put_pairs(stack: &mut VecDeque<Want>) -> Result<bool, OutOfMemory>
    ensures { IfOk result (λ can. (can ≡ true) × (stack.new.items ≡ pairs_next ++ stack.old.items)) }
{
    put(stack, Want::Pairs)?;
    put_three(stack, Want::Term, Want::Arrow, Want::Term)
}
