// Who watches a measurement.
ghost use Rattle.std.specs.Prelude.{◌≡◌};
ghost use Rattle.sv_types.specs.Measure.{digests_of};

use sv_types::Digest;

/// Watches a measurement, whose chunks run side by side and in any order. Chunks are counted from 0.
pub trait Meter {
    /// The pages of a chunk are about to be digested.
    fn begin(&self, chunk: usize);

    /// The pages of a chunk have these digests. They are shown so that no body can say so before it has digested them.
    fn end(&self, chunk: usize, pages: &[u8], digests: &[Digest])
        requires digested { digests.now ≡ digests_of pages.now };
}

/// Watches nothing.
#[derive(Clone, Copy, Drop)]
pub struct Silent;

impl Meter for Silent {
    fn begin(&self, _chunk: usize) {}

    fn end(&self, _chunk: usize, _pages: &[u8], _digests: &[Digest]) {}
}
