use rif_values::Text;

/// What has still to come. A list and the bracket that ends it are one want, so that each begins with a
/// leaf, and that leaf decides.
///
/// Source: our own (docs/FORMATS.md, "Grammar").
#[derive(Drop)]
pub enum Want {
    Document,
    /// `Prefix* Group? ')'`
    Prefixes,
    PrefixName,
    PrefixIri,
    /// What stands behind `Group`, to the bracket that ends its members.
    GroupHead,
    /// The same behind a strategy.
    GroupPriority,
    /// `(Rule | Group)* ')'`
    Members,
    Rule,
    Variable,
    /// What stands behind a first variable of `Forall`, to the bracket that ends the inner rule.
    ForallRest,
    /// The same behind a first formula of `such that`.
    SuchRest,
    /// The same behind a bracket in that list: it is a formula's, or the inner rule's.
    SuchBracket,
    /// `Decl* Action+ ')'`
    Block,
    /// `Action* ')'`
    Actions,
    DeclVariable,
    /// What stands behind a declaration's variable.
    DeclRest(Text),
    /// This variable.
    SameVariable(Text),
    Target,
    /// What stands behind the first term of a target, where it isn't a name.
    TargetTail,
    /// The same where it is a name.
    TargetAfterName,
    /// What stands in the brackets of `Retract`, and their end.
    Retracted,
    /// The same behind a first term that isn't a name.
    RetractedTail,
    /// The same behind a name.
    RetractedAfterName,
    Formula,
    /// `Formula* ')'`
    Formulas,
    /// What stands behind a first variable of `Exists`.
    ExistsRest,
    /// What stands behind `External` `(` where a formula begins.
    BuiltinOfFormula,
    /// What stands behind the first term of a formula, where it isn't a name.
    Tail,
    /// The same where it is a name.
    AfterName,
    Term,
    /// `Term* ')'`
    Terms,
    FuncName,
    /// `Pair* ']'`
    Pairs,
    TypeName,
    Open,
    Close,
    OpenSquare,
    CloseSquare,
    Arrow,
    Carets,
    That,
    Then,
    Do,
}
