//! Laws of the orders.
ghost use Rattle.std.specs.Prelude.{◌≡◌};
ghost use Rattle.rif_values.specs.Order.{const_cmp, fact_cmp, binding_cmp};
ghost use Rattle.rif_values.specs.InstanceOrder.{instance_cmp};
ghost use Rattle.rif_values.specs.OrderLaws.{AreTotal, TellAllApart};

use crate::binding::Binding;
use crate::constant::Const;
use crate::fact::Fact;
use crate::instance::Instance;

/// Law: the orders that `Ord` gives are the stated ones.
pub fn derived_orders_are_the_stated_ones()
    ensures constants { ⟦<Const as Ord>⟧.cmp ≡ const_cmp }
    ensures facts { ⟦<Fact as Ord>⟧.cmp ≡ fact_cmp }
    ensures bindings { ⟦<Binding as Ord>⟧.cmp ≡ binding_cmp }
    ensures instances { ⟦<Instance as Ord>⟧.cmp ≡ instance_cmp }
{}

/// Law: the orders are total.
pub fn orders_are_total()
    ensures { AreTotal }
{}

/// Law: of two constants, facts, bindings or instances that compare alike each is the other.
pub fn orders_tell_all_apart()
    ensures { TellAllApart }
{}
