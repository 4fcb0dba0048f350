//! Filters.
ghost use Rattle.std.specs.Prelude.{◌≡◌, true, IfOk, IfSome, Some};
ghost use Rattle.std.specs.Option.{option_map};
ghost use Rattle.metric_filter.specs.Filter.{applied, has_no_rule, keeps_all, left, no_rules};
ghost use Rattle.metric_filter.specs.Filter.{selects, with_fields};
ghost use Rattle.metric_filter.specs.Kept.{is_same, metric_of, IsKeptOf};
ghost use Rattle.metric_filter.specs.declared.kept.Kept.TheVariants.{Same};

use crate::kept::Kept;
use crate::left::{keeps_all, left};
use crate::rules::{FilterRules, passes, some_matches, some_tag, tags_pass};
use fixed_num::{OutOfMemory, Seq};
use metric::Metric;
use std::alloc::Global;
use std::marker::Model;

/// A filter: it lets metrics pass by their names and tags, and leaves some of their fields and tags.
#[derive(Debug, Drop)]
pub struct Filter {
    alloc: Global,
    rules: FilterRules,
    // Whether there is no rule, which is asked for each metric.
    no_rule: bool,
}

impl Model for Filter {
    ghost use Rattle.metric_filter.specs.declared.rules.FilterRules.{FilterRules};
    ghost use Rattle.std.specs.Prelude.{◌≡◌};
    ghost use Rattle.metric_filter.specs.Filter.{has_no_rule};

    ghost Value = { FilterRules };

    ghost view = { λ f. f.rules };

    ghost invariant = { λ f. f.no_rule ≡ has_no_rule f.rules };
}

/// Is there no rule?
fn are_none(rules: &FilterRules) -> bool
    ensures { result ≡ has_no_rule rules.now }
{
    rules.namepass.as_slice().is_empty()
        && rules.namedrop.as_slice().is_empty()
        && rules.tagpass.as_slice().is_empty()
        && rules.tagdrop.as_slice().is_empty()
        && rules.fieldinclude.as_slice().is_empty()
        && rules.fieldexclude.as_slice().is_empty()
        && rules.taginclude.as_slice().is_empty()
        && rules.tagexclude.as_slice().is_empty()
}

impl Filter {
    /// The filter of these rules.
    pub fn new(alloc: Global, rules: FilterRules) -> Filter
        ensures { result ≡ rules }
    {
        let no_rule = are_none(&rules);
        Filter {
            alloc,
            rules,
            no_rule,
        }
    }

    /// The filter without rules.
    pub fn without_rules(alloc: Global) -> Filter
        ensures { result ≡ no_rules }
    {
        Filter::new(
            alloc,
            FilterRules {
                namepass: Seq::of(Vec::new(alloc)),
                namedrop: Seq::of(Vec::new(alloc)),
                fieldinclude: Seq::of(Vec::new(alloc)),
                fieldexclude: Seq::of(Vec::new(alloc)),
                taginclude: Seq::of(Vec::new(alloc)),
                tagexclude: Seq::of(Vec::new(alloc)),
                tagpass: Seq::of(Vec::new(alloc)),
                tagdrop: Seq::of(Vec::new(alloc)),
            },
        )
    }

    /// Does the metric pass by its name and tags? It does where its name passes namepass and isn't dropped by
    /// namedrop, and its tags pass tagpass and aren't dropped by tagdrop.
    pub fn selects(&self, m: &Metric) -> bool
        ensures { result ≡ selects self.now m.now }
    {
        let rules = &self.rules;
        let name = m.name().as_str();
        passes(rules.namepass.as_slice(), name)
            && !some_matches(rules.namedrop.as_slice(), name)
            && tags_pass(rules.tagpass.as_slice(), m)
            && !some_tag(rules.tagdrop.as_slice(), m)
    }

    /// What is left of a metric: None exactly where it isn't selected or no field is left; else the metric
    /// with the fields and tags that are included and not excluded, in their order. It is `Same` exactly where nothing is
    /// left out, and shares the metric's content then.
    pub fn apply(&self, m: &Metric) -> Result<Option<Kept>, OutOfMemory>
        ensures answer { IfOk result (λ answer. option_map metric_of answer ≡ applied self.now m.now) }
        ensures same { IfOk result (λ answer. IfSome answer (λ kept. is_same kept ≡ keeps_all self.now m.now)) }
        ensures itself { IfOk result (λ answer. IfSome answer (IsKeptOf m.now)) }
    {
        if !self.selects(m) {
            return Ok(None);
        }
        self.left_of(m.copy()?)
    }

    /// What the tests of fields and tags leave of a metric, which is given up, whether or not it is selected: None exactly
    /// where no field is left; else the metric with the fields and tags that are included and not excluded, in their
    /// order. It is `Same` exactly where nothing is left out.
    pub fn left_of(&self, m: Metric) -> Result<Option<Kept>, OutOfMemory>
        ensures answer { IfOk result (λ answer. option_map metric_of answer ≡ with_fields (left self.now m)) }
        ensures same { IfOk result (λ answer. IfSome answer (λ kept. is_same kept ≡ keeps_all self.now m)) }
        ensures itself { IfOk result (λ answer. IfSome answer (IsKeptOf m)) }
    {
        m.shows_metric();
        let rules = &self.rules;
        if keeps_all(rules, &m) {
            return Ok(Some(Kept::Same(m)));
        }
        match left(self.alloc, rules, &m)? {
            Some(left) => Ok(Some(Kept::Changed(left))),
            None => Ok(None),
        }
    }

    /// Has the filter no rule?
    pub fn has_no_rule(&self) -> bool
        ensures { result ≡ has_no_rule self.now }
    {
        self.no_rule
    }

    /// What `apply` gives for the metric, which is given up; where the filter has no rule that is the metric itself.
    pub fn apply_to(&self, m: Metric) -> Result<Option<Kept>, OutOfMemory>
        ensures answer { IfOk result (λ answer. option_map metric_of answer ≡ applied self.now m) }
        ensures same { IfOk result (λ answer. IfSome answer (λ kept. is_same kept ≡ keeps_all self.now m)) }
        ensures itself { IfOk result (λ answer. IfSome answer (IsKeptOf m)) }
        ensures unchanged { has_no_rule self.now ≡ true → IfOk result (λ answer. answer ≡ Some (Same m)) }
    {
        m.shows_metric();
        if self.has_no_rule() {
            return Ok(Some(Kept::Same(m)));
        }
        if !self.selects(&m) {
            return Ok(None);
        }
        self.left_of(m)
    }
}
