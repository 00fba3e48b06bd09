//! The variables of a rule, each as its place in the rule's names.
ghost use Rattle.std.specs.Prelude.{◌≡◌};
ghost use Rattle.rif_tree.specs.Variables.{has_variable};

/// Whether a variable is among some. It takes at most one comparison for each of them, and no memory.
pub fn has_variable(vars: &[u32], var: u32) -> bool
    ensures { result ≡ has_variable vars.now var }
{
    vars.iter().any(|found| *found == var)
}
