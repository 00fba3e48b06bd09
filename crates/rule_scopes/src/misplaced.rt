//! Variables that stand where they may not, as a walk through a rule finds them.
ghost use Rattle.std.specs.Prelude.{◌≡◌, ◌++◌, OnOk};
ghost use Rattle.rule_scopes.specs.Misplaced.{declaration_of, nothing, seen, seen_all, told, use_of};
ghost use Rattle.rule_scopes.specs.Occurrences.{declared};

use rif_tree::has_variable;
use rif_values::OutOfMemory;

/// The variable that was used first where it doesn't hold, and the one that was declared first where it holds, each
/// as its place in the rule's names.
#[derive(Clone, Copy)]
pub struct Misplaced {
    pub undeclared: Option<u32>,
    pub repeated: Option<u32>,
}

/// None was found yet.
pub fn nothing() -> Misplaced
    ensures { result ≡ nothing }
{
    Misplaced {
        undeclared: None,
        repeated: None,
    }
}

/// Sees a use of a variable.
pub fn see_use(found: &mut Misplaced, held: &[u32], var: u32)
    ensures { found.new ≡ seen found.old (use_of held.now var) }
{
    found.undeclared = told(!has_variable(held, var), var, found.undeclared);
}

/// Sees a declaration of a variable.
pub fn see_declaration(found: &mut Misplaced, held: &[u32], var: u32)
    ensures { found.new ≡ seen found.old (declaration_of held.now var) }
{
    found.repeated = told(has_variable(held, var), var, found.repeated);
}

// What was found first, where this variable is told of behind it or isn't.
fn told(is_told: bool, var: u32, found: Option<u32>) -> Option<u32>
    ensures { result ≡ told is_told var found }
{
    if is_told { found.or(Some(var)) } else { found }
}

/// Sees a list of declarations, each of which holds from the next one on, and then adds them to what holds.
pub fn see_declared(
    found: &mut Misplaced,
    held: &mut Vec<u32>,
    vars: &[u32],
) -> Result<(), OutOfMemory>
    ensures found { OnOk result (found.new ≡ seen_all found.old (declared held.old.items vars.now)) }
    ensures held { OnOk result (held.new.items ≡ held.old.items ++ vars.now) }
{
    for var in vars {
        see_declaration(found, held.as_slice(), *var);
        held.push(*var)?;
    }
    Ok(())
}
