//! A rewriting with what searches for its pattern.
ghost use Rattle.std.specs.Prelude.{◌≡◌, IfOk};
ghost use Rattle.proc_regex.specs.Rewrite.{rewritten};

use fixed_num::OutOfMemory;
use metric::Metric;
use proc_regex::Rewrite;
use regex::Matcher;
use std::alloc::Global;
use std::marker::Model;

/// A rewriting with what searches for its pattern.
#[derive(Drop)]
pub(crate) struct Rewriter<'a> {
    rewrite: &'a Rewrite,
    matcher: Matcher<'a>,
}

impl<'a> Model for Rewriter<'a> {
    ghost use Rattle.proc_regex.specs.Rewrite.{Rule};
    ghost use Rattle.proc_regex.specs.Search.{SearchesFor};

    ghost Value = { Rule };

    ghost view = { λ r. r.rewrite.now };

    ghost invariant = { λ r. SearchesFor r.rewrite.now.pattern r.matcher };
}

impl<'a> Rewriter<'a> {
    /// What rewrites so.
    pub(crate) fn of(alloc: Global, rewrite: &'a Rewrite) -> Result<Rewriter<'a>, OutOfMemory>
        ensures { IfOk result (λ r. r ≡ rewrite.now) }
    {
        let matcher = rewrite.matcher(alloc)?;
        Ok(Rewriter { rewrite, matcher })
    }

    /// The metric rewritten.
    pub(crate) fn apply(&mut self, m: Metric) -> Result<Metric, OutOfMemory>
        ensures answer { IfOk result (λ answer. answer ≡ rewritten self.old m) }
        ensures same { self.new ≡ self.old }
    {
        self.rewrite.apply(&mut self.matcher, m)
    }
}
