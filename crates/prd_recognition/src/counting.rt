//! What a rule has so far.
ghost use Rattle.std.specs.Prelude.{◌≡◌, None, Some, IfOk, MatchOption, OnOk, false, pred};
ghost use Rattle.prd_recognition.specs.Reached.{RuleGoes, RuleHasRoom, counts_seen, ends_at, rule_counted, rule_from};
ghost use Rattle.prd_recognition.specs.Reached.{rule_seen};
ghost use Rattle.prd_grammar.specs.Values.{has_name, names_with};

use crate::signs::{begins_rule, is_action, is_close, is_do, is_sign_of_pattern};
use prd_grammar::Leaf;
use rif_values::{OutOfMemory, Text};
use sqlite_items::Items;
use std::alloc::Global;

/// What a rule has so far.
#[derive(Drop)]
pub struct RuleReading {
    /// How many brackets were open where it began.
    around: usize,
    /// Whether its `Do` has come.
    in_block: bool,
    /// Its variables, in first-seen order.
    pub names: Items<Text>,
    /// The patterns of its conditions.
    pub patterns: u64,
    pub actions: u64,
}

impl RuleReading {
    ghost use Rattle.std.specs.Prelude.{◌≡◌, ◌<◌, ◌+◌, ◌^◌, OnOk};
    ghost use Rattle.prd_grammar.specs.Progress.{counts_with, is_pattern, no_counts};
    ghost use Rattle.prd_recognition.specs.Reached.{counts_seen, ends_at};

    /// Before the rule's first leaf, where so many brackets are open.
    pub fn new(alloc: Global, around: usize) -> RuleReading
        ensures { counts_seen result ≡ no_counts around }
    {
        RuleReading {
            around,
            in_block: false,
            names: Items::new(alloc),
            patterns: 0,
            actions: 0,
        }
    }

    /// Whether a leaf is that of a pattern in the rule's conditions.
    pub fn is_pattern(&self, named: bool, leaf: &Leaf) -> bool
        ensures { result ≡ is_pattern named (counts_seen self.now) leaf.now }
    {
        !self.in_block && is_sign_of_pattern(named, leaf)
    }

    /// Whether the rule ends at a leaf, behind which so many brackets are open if it closes one.
    pub fn ends(&self, behind: usize, leaf: &Leaf) -> bool
        ensures { result ≡ ends_at behind (counts_seen self.now) leaf.now }
    {
        is_close(leaf) && self.in_block && behind == self.around
    }

    /// Counts one more leaf.
    pub fn count(&mut self, named: bool, leaf: &Leaf) -> Result<(), OutOfMemory>
        requires patterns { self.old.patterns + 1 < 2 ^ 64 }
        requires actions { self.old.actions + 1 < 2 ^ 64 }
        ensures { OnOk result (counts_seen self.new ≡ counts_with named (counts_seen self.old) leaf.now) }
    {
        let patterns = u64::from(self.is_pattern(named, leaf));
        put_name(&mut self.names, leaf)?;
        self.in_block = self.in_block || is_do(leaf);
        self.patterns += patterns;
        self.actions += u64::from(is_action(leaf));
        Ok(())
    }

    /// The names.
    pub fn into_names(self) -> Items<Text>
        ensures { result ≡ self.names }
    {
        let RuleReading { names, .. } = self;
        names
    }
}

/// Goes on in a rule behind one more leaf, where so many brackets were open before it: in one that is being
/// read, or in one that begins. The answer is the names of a rule that ends at the leaf.
pub fn go_on_in_rule(
    alloc: Global,
    rule: &mut Option<RuleReading>,
    depth: usize,
    named: bool,
    leaf: &Leaf,
) -> Result<Option<Items<Text>>, OutOfMemory>
    requires { RuleHasRoom (rule_seen rule.old) }
    ensures { IfOk result (λ ended.
        RuleGoes (pred depth) named (rule_from (rule_seen rule.old) depth leaf.now) leaf.now rule.new ended) }
{
    begin_rule(alloc, rule, depth, leaf);
    if is_ended(rule, depth.saturating_sub(1), leaf) {
        return Ok(end_rule(rule));
    }
    count_in(rule, named, leaf)?;
    Ok(None)
}

// A rule begins where none is being read and the leaf begins one.
fn begin_rule(alloc: Global, rule: &mut Option<RuleReading>, depth: usize, leaf: &Leaf)
    ensures { rule_seen rule.new ≡ rule_from (rule_seen rule.old) depth leaf.now }
{
    match rule {
        None if begins_rule(leaf) => *rule = Some(RuleReading::new(alloc, depth)),
        _ => {}
    }
}

// Whether the rule that is being read ends at a leaf, behind which so many brackets are open if it closes one.
fn is_ended(rule: &Option<RuleReading>, behind: usize, leaf: &Leaf) -> bool
    ensures { MatchOption rule.now (result ≡ false) (λ counts. result
        ≡ ends_at behind (counts_seen counts) leaf.now) }
{
    match rule {
        None => false,
        Some(counts) => counts.ends(behind, leaf),
    }
}

// Ends the rule that is being read. The answer is its names.
fn end_rule(rule: &mut Option<RuleReading>) -> Option<Items<Text>>
    ensures none { rule.new ≡ None }
    ensures names { MatchOption rule.old (result ≡ None) (λ counts. result ≡ Some counts.names) }
{
    match rule.take() {
        None => None,
        Some(counts) => Some(counts.into_names()),
    }
}

// Counts one more leaf of the rule that is being read.
fn count_in(rule: &mut Option<RuleReading>, named: bool, leaf: &Leaf) -> Result<(), OutOfMemory>
    requires { RuleHasRoom (rule_seen rule.old) }
    ensures { OnOk result (rule_seen rule.new ≡ rule_counted named (rule_seen rule.old) leaf.now) }
{
    match rule {
        None => Ok(()),
        Some(counts) => counts.count(named, leaf),
    }
}

/// Whether a name is one of these.
pub fn has_name(names: &Items<Text>, name: &Text) -> bool
    ensures { result ≡ has_name names.now name.now }
{
    names
        .as_slice()
        .iter()
        .any(|known| known.bytes() == name.bytes())
}

// Adds the name of a leaf, where it is a variable that isn't one of these.
fn put_name(names: &mut Items<Text>, leaf: &Leaf) -> Result<(), OutOfMemory>
    ensures { OnOk result (names.new ≡ names_with names.old leaf.now) }
{
    match leaf {
        Leaf::Var(name) if !has_name(names, name) => Ok(names.push(name.copy()?)?),
        _ => Ok(()),
    }
}
