//! Laws of the words of the ready order.
ghost use Rattle.ready_order.specs.Laws.{AreConjunctsScoped, AreTakenReady, AreTakenScoped, IsArrangedReady};
ghost use Rattle.ready_order.specs.Laws.{IsArrangedStaying, IsArrangingGrowing, IsReadyArranged};
ghost use Rattle.ready_order.specs.Laws.{IsArrangementScoped, IsArrangementTaking, IsLeastLeft, IsLeftUnbound};
ghost use Rattle.ready_order.specs.Laws.{AreDeclarationsKept, IsArrangementShaped, IsNothingLost};

use rif_tree::{readiness_grows, readiness_is_of_members};

/// Law: an arrangement is what comes of taking the first piece that is ready again and again, and nothing else comes
/// of it.
pub fn arrangement_is_taking()
    ensures { IsArrangementTaking }
{}

/// Law: what is arranged is ready as it stands, and has the same variables free.
pub fn arranged_is_ready()
    ensures { IsArrangedReady }
{
    readiness_is_of_members();
}

/// Law: what is taken of formulas is ready in its order, and binds what is bound behind it.
pub fn taken_is_ready()
    ensures { AreTakenReady }
{
    readiness_is_of_members();
}

/// Law: a formula's conjuncts together have the scope that it has.
pub fn conjuncts_are_scoped()
    ensures { AreConjunctsScoped }
{}

/// Law: what is taken of scoped formulas is scoped.
pub fn taken_is_scoped()
    ensures { AreTakenScoped }
{}

/// Law: what is taken of a scoped condition's conjuncts is scoped as a whole.
pub fn arrangement_is_scoped()
    ensures { IsArrangementScoped }
{}

/// Law: no variable is lost: a formula's conjuncts have those that it has, and what is taken and left of them has
/// too.
pub fn nothing_is_lost()
    ensures { IsNothingLost }
{
    readiness_is_of_members();
}

/// Law: no declaration is lost, and none comes in: where none of a condition's conjuncts is left, those that are
/// taken declare the variables that it declares.
pub fn declarations_are_kept()
    ensures { AreDeclarationsKept }
{}

/// Law: what is taken of a condition's conjuncts has the shape of arranged conditions.
pub fn arrangement_is_shaped()
    ensures { IsArrangementShaped }
{}

/// Law: where conjuncts are left, some variable that occurs in them isn't bound, so that a refusal can name one.
pub fn left_is_unbound()
    ensures { IsLeftUnbound }
{}

/// Law: the least unbound variable of what is left occurs there and isn't bound, and no less one is so.
pub fn least_is_left()
    ensures { IsLeastLeft }
{}

/// Law: what can be arranged can be where more variables are bound.
pub fn arranging_grows()
    ensures { IsArrangingGrowing }
{
    readiness_grows();
}

/// Law: what stands ready is arranged as it stands.
pub fn ready_is_arranged()
    ensures { IsReadyArranged }
{}

/// Law: a condition that has the shape of arranged conditions and stands ready is left as it is.
pub fn arranged_stays()
    ensures { IsArrangedStaying }
{}
