//! The sorts of constraints, by the keys that name them.
ghost use Rattle.std.specs.Prelude.{◌≡◌};
ghost use Rattle.hot_forms.specs.Constraints.{rule_of as the_rule_of, suits as the_suits};

use crate::Sort;

/// What a constraint asks of a parameter's value.
#[derive(Clone, Copy, Debug, PartialEq, Eq)]
pub enum Rule {
    /// `length`
    Length,
    /// `range`
    Range,
    /// `modulo`
    Modulo,
    /// `allowed_values`
    Values,
    /// `allowed_pattern`
    Pattern,
    /// `custom_constraint`
    Custom,
}

/// The constraint that a key names.
pub fn rule_of(key: &str) -> Option<Rule>
    ensures { result ≡ the_rule_of key.now }
{
    if key == "length" {
        return Some(Rule::Length);
    }
    if key == "range" {
        return Some(Rule::Range);
    }
    if key == "modulo" {
        return Some(Rule::Modulo);
    }
    if key == "allowed_values" {
        return Some(Rule::Values);
    }
    if key == "allowed_pattern" {
        return Some(Rule::Pattern);
    }
    if key == "custom_constraint" {
        return Some(Rule::Custom);
    }
    None
}

/// Whether a constraint suits a type.
pub fn suits(rule: Rule, sort: Sort) -> bool
    ensures { result ≡ the_suits rule sort }
{
    match rule {
        Rule::Length => matches!(sort, Sort::Words | Sort::Json | Sort::List),
        Rule::Range | Rule::Modulo => matches!(sort, Sort::Number),
        Rule::Values => !matches!(sort, Sort::Json),
        Rule::Pattern | Rule::Custom => matches!(sort, Sort::Words | Sort::List),
    }
}
