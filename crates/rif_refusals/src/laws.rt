//! Laws of the limits.
ghost use Rattle.rif_refusals.specs.LimitLaws.{AreTheStatedOnes};

/// Law: each limit is the number of its definition.
///
/// Source: our own (docs/FORMATS.md, "Limits").
pub fn limits_are_the_stated_ones()
    ensures { AreTheStatedOnes }
{}
