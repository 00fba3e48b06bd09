//! How many branches a formula has, counted no further than one above the limit.
ghost use Rattle.std.specs.Prelude.{◌≡◌, ◌≤◌, ◌+◌, ◌*◌, ◌||◌, min, suc, map, nat_lt};
ghost use Rattle.std.specs.List.{list_any};
ghost use Rattle.rif_refusals.specs.Limits.{most_branches};
ghost use Rattle.ready_order.specs.Branches.{Branching, apart_in, branching_of, has_too_many_branches};
ghost use Rattle.ready_order.specs.Branches.{product_of, sum_of};

use rif_refusals::limits::MOST_BRANCHES;
use rif_tree::Formula;

/// The number of a formula's branches, cut at one above the limit, and whether a number that is counted apart in it
/// is above the limit.
#[derive(Clone, Copy)]
struct Tally {
    branches: u64,
    is_over: bool,
}

const ONE_BRANCH: Tally = Tally {
    branches: 1,
    is_over: false,
};

/// Whether a condition, or the formula inside some `Not` or `Exists` of it, has more branches than the limit. It
/// visits the whole formula, as deep as it is.
///
/// Source: docs/FORMATS.md, "Refusals".
pub fn too_many_branches(formula: &Formula) -> bool
    ensures { result ≡ has_too_many_branches formula.now }
{
    is_over(count_branches(formula))
}

// Whether a formula of this tally, or one inside it, has too many branches.
fn is_over(inner: Tally) -> bool
    ensures { result ≡ (nat_lt most_branches inner.branches || inner.is_over) }
{
    MOST_BRANCHES < inner.branches || inner.is_over
}

#[cycle(branches)]
#[tactic(auto, using(crate::proofs::BranchesLemmas::branching_and, crate::proofs::BranchesLemmas::branching_or))]
fn count_branches(formula: &Formula) -> Tally
    ensures branches { result.branches ≡ min (branching_of formula.now).branches (suc most_branches) }
    ensures over { result.is_over ≡ list_any (nat_lt most_branches) (branching_of formula.now).apart }
{
    match formula {
        Formula::And(members) => product(members.as_slice()),
        Formula::Or(branches) => sum(branches.as_slice()),
        Formula::Not(inner) => Tally {
            branches: 1,
            is_over: is_over(count_branches(inner.get())),
        },
        Formula::Exists(_, inner) => {
            let inside = count_branches(inner.get());
            Tally {
                branches: inside.branches,
                is_over: is_over(inside),
            }
        }
        Formula::Equal(..)
        | Formula::Member(..)
        | Formula::Frame(..)
        | Formula::Atom(..)
        | Formula::Holds(..) => ONE_BRANCH,
    }
}

#[cycle(branches)]
fn product(members: &[Formula]) -> Tally
    ensures branches { result.branches
        ≡ min (product_of (map Branching.branches (map branching_of members.now))) (suc most_branches) }
    ensures over { result.is_over ≡ list_any (nat_lt most_branches) (apart_in (map branching_of members.now)) }
{
    let mut so_far = ONE_BRANCH;
    for member in members {
        let one = count_branches(member);
        so_far = multiplied(so_far, one);
    }
    so_far
}

#[cycle(branches)]
fn sum(branches: &[Formula]) -> Tally
    ensures branches { result.branches
        ≡ min (sum_of (map Branching.branches (map branching_of branches.now))) (suc most_branches) }
    ensures over { result.is_over ≡ list_any (nat_lt most_branches) (apart_in (map branching_of branches.now)) }
{
    let mut so_far = Tally {
        branches: 0,
        is_over: false,
    };
    for branch in branches {
        let one = count_branches(branch);
        so_far = added(so_far, one);
    }
    so_far
}

// A product is cut and goes on: a later factor may be 0.
fn multiplied(one: Tally, other: Tally) -> Tally
    requires one { one.branches ≤ suc most_branches }
    requires other { other.branches ≤ suc most_branches }
    ensures branches { result.branches ≡ min (one.branches * other.branches) (suc most_branches) }
    ensures over { result.is_over ≡ (one.is_over || other.is_over) }
{
    Tally {
        branches: (one.branches * other.branches).min(MOST_BRANCHES + 1),
        is_over: one.is_over || other.is_over,
    }
}

fn added(one: Tally, other: Tally) -> Tally
    requires one { one.branches ≤ suc most_branches }
    requires other { other.branches ≤ suc most_branches }
    ensures branches { result.branches ≡ min (one.branches + other.branches) (suc most_branches) }
    ensures over { result.is_over ≡ (one.is_over || other.is_over) }
{
    Tally {
        branches: (one.branches + other.branches).min(MOST_BRANCHES + 1),
        is_over: one.is_over || other.is_over,
    }
}
