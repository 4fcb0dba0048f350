//! What a tag or a field is converted to.
ghost use Rattle.std.specs.Prelude.{◌≡◌};
ghost use Rattle.proc_edit.specs.Convert.{is_asked, rank_of, target_of};

use metric::Glob;

/// What a tag or a field is converted to. Where several are asked for, the first in this order counts.
#[derive(Clone, Copy, Debug, PartialEq, Eq)]
pub enum Target {
    /// A tag.
    Tag,
    /// A text.
    Text,
    /// A signed whole number.
    Int,
    /// An unsigned whole number.
    Uint,
    /// A truth value.
    Bool,
    /// A number with nine decimals.
    Fixed,
}

/// The rank of a target in the order.
fn rank_of(target: Target) -> u8
    ensures { result ≡ rank_of target }
{
    match target {
        Target::Tag => 0,
        Target::Text => 1,
        Target::Int => 2,
        Target::Uint => 3,
        Target::Bool => 4,
        Target::Fixed => 5,
    }
}

/// Does a rule ask for this target, by a glob that matches the key?
fn is_asked(rules: &[(Target, Glob)], target: Target, key: &str) -> bool
    ensures { result ≡ is_asked rules.now key.now target }
{
    rules.iter().any(|rule| rank_of(rule.0) == rank_of(target) && rule.1.matches(key))
}

/// The first target in the order for which a rule asks, by a glob that matches the key.
pub(crate) fn target_of(rules: &[(Target, Glob)], key: &str) -> Option<Target>
    ensures { result ≡ target_of rules.now key.now }
{
    if is_asked(rules, Target::Tag, key) {
        Some(Target::Tag)
    } else if is_asked(rules, Target::Text, key) {
        Some(Target::Text)
    } else if is_asked(rules, Target::Int, key) {
        Some(Target::Int)
    } else if is_asked(rules, Target::Uint, key) {
        Some(Target::Uint)
    } else if is_asked(rules, Target::Bool, key) {
        Some(Target::Bool)
    } else if is_asked(rules, Target::Fixed, key) {
        Some(Target::Fixed)
    } else {
        None
    }
}
