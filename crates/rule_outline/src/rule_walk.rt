//! The walk through a rule, beside the leaves that spell it.
use crate::formula_walk::{
    walk_declared, walk_formula, walk_pairs, walk_term, walk_terms, walk_two,
};
use crate::mention::Declarer;
use crate::part::Form;
use crate::sign::Sign;
use crate::walk::{Around, Walk};
use rif_tree::{Action, Decl, Formula, Level, Rule, Target};
use rif_values::OutOfMemory;

/// What stands round a rule's conditions.
const IN_CONDITION: Around = Around {
    part: 0,
    nots: 0,
    ors: 0,
    is_asked: false,
    is_in_condition: true,
    is_conjunct: true,
};

/// What stands round a rule's block.
const IN_BLOCK: Around = Around {
    part: 0,
    nots: 0,
    ors: 0,
    is_asked: false,
    is_in_condition: false,
    is_conjunct: false,
};

/// Walks through a rule.
pub fn walk_rule(walk: &mut Walk<'_>, rule: &Rule) -> Result<(), OutOfMemory> {
    let inside = walk.open(Form::Condition, IN_CONDITION)?;
    for level in rule.levels.as_slice() {
        walk_level(walk, inside, level)?;
    }
    if let Some(formula) = &rule.condition {
        walk_top(walk, Form::If, inside, formula)?;
    }
    walk.close(inside);
    walk_block(walk, rule)
}

fn walk_level(walk: &mut Walk<'_>, around: Around, level: &Level) -> Result<(), OutOfMemory> {
    walk_declared(walk, Declarer::Forall, around, level.vars.as_slice())?;
    for formula in level.such_that.as_slice() {
        walk_top(walk, Form::SuchThat, around, formula)?;
    }
    Ok(())
}

// Walks through one of the formulas that a rule's condition has.
fn walk_top(
    walk: &mut Walk<'_>,
    form: Form,
    around: Around,
    formula: &Formula,
) -> Result<(), OutOfMemory> {
    let inside = walk.open(form, around)?;
    walk_formula(walk, inside, formula)?;
    walk.close(inside);
    Ok(())
}

fn walk_block(walk: &mut Walk<'_>, rule: &Rule) -> Result<(), OutOfMemory> {
    for decl in rule.decls.as_slice() {
        walk_decl(walk, decl)?;
    }
    walk_actions(walk, rule.actions.as_slice())
}

// A declaration's variable holds behind it, and not in its own terms. That of a slot stands a second time at its end.
fn walk_decl(walk: &mut Walk<'_>, decl: &Decl) -> Result<(), OutOfMemory> {
    match decl {
        Decl::Slot { var, object, slot } => {
            let declaration = walk.mention(*var, Some(Declarer::Block), IN_BLOCK)?;
            walk_two(walk, IN_BLOCK, object, slot)?;
            walk.pass(Sign::Variable);
            walk.hold(*var, declaration, IN_BLOCK)
        }
        Decl::New { var } => walk.declare(*var, Declarer::Block, IN_BLOCK),
    }
}

fn walk_actions(walk: &mut Walk<'_>, actions: &[Action]) -> Result<(), OutOfMemory> {
    for action in actions {
        walk_action(walk, action)?;
    }
    Ok(())
}

fn walk_action(walk: &mut Walk<'_>, action: &Action) -> Result<(), OutOfMemory> {
    match action {
        Action::Assert(target) | Action::Retract(target) => walk_target(walk, target),
        Action::RetractSlot(object, slot) => walk_two(walk, IN_BLOCK, object, slot),
        Action::RetractObject(object) => walk_term(walk, IN_BLOCK, object),
        Action::Modify(object, pairs) => {
            walk_term(walk, IN_BLOCK, object)?;
            walk_pairs(walk, IN_BLOCK, pairs.as_slice())
        }
    }
}

fn walk_target(walk: &mut Walk<'_>, target: &Target) -> Result<(), OutOfMemory> {
    match target {
        Target::Atom(_, terms) => {
            walk.pass(Sign::Constant);
            walk_terms(walk, IN_BLOCK, terms.as_slice())
        }
        Target::Frame(object, pairs) => {
            walk_term(walk, IN_BLOCK, object)?;
            walk_pairs(walk, IN_BLOCK, pairs.as_slice())
        }
        Target::Member(object, class) => walk_two(walk, IN_BLOCK, object, class),
    }
}
