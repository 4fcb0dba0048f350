//! What is written as a batch.
ghost use Rattle.std.specs.Prelude.{◌≡◌, ◌<◌, List, Some, length, slice_get};
ghost use Rattle.metric.specs.declared.metric.Content.{Content};

use metric::Metric;

/// Metrics in an order, which are lent one by one, so that whoever keeps them beside other things copies none to have them
/// written.
pub trait Metrics<'a> {
    /// All of them, in order.
    ghost all: { Self → List Content };

    /// How many there are.
    fn count(&self) -> usize
        ensures { result ≡ length (all self.now) };

    /// The metric at an index.
    fn at(&self, index: usize) -> &'a Metric
        requires { index < length (all self.now) }
        ensures { slice_get (all self.now) index ≡ Some result.now };
}
