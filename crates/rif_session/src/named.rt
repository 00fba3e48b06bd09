use std::marker::Brand;

/// Which list and which document a session is of: names that contracts alone see, since nothing else is known of what
/// stands behind a lock but its type.
pub trait Named {
    ghost use Rattle.std.specs.Prelude.{List};
    ghost use Rattle.prop_list.specs.Lists.{ListId};
    ghost use Rattle.safe_rules.specs.declared.safe_rule.SafeRule.{SafeRule};

    ghost list: { ListId };

    ghost document: { List SafeRule };
}

impl Named for Brand {
    ghost use Rattle.std.specs.Prelude.{[], None};
    ghost use Rattle.prop_list.specs.Lists.{queue};

    ghost list = { record { store = queue (0, 0); seats = 0; capacity = None } };

    ghost document = { [] };
}
