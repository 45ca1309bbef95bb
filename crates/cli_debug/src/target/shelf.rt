// The states of a run that are kept.
ghost use Rattle.std.specs.Prelude.{◌≡◌, None, Some, if◌then◌else◌, is_some, option_map};
ghost use Rattle.cli_debug.specs.Shelves as spec;

use crate::target::kept::Kept;

/// Two states of a run that are kept: the later one of those that came no later than the place that a search may lead back to,
/// and the last one.
#[derive(Drop)]
pub struct Shelf {
    before: Option<Kept>,
    last: Option<Kept>,
}

impl Shelf {
    /// Nothing is kept.
    pub(crate) fn new() -> Shelf
        ensures before { result.before ≡ None }
        ensures last { result.last ≡ None }
    {
        Shelf {
            before: None,
            last: None,
        }
    }

    /// Keeps a state more, while a search may lead back to so many events.
    pub(crate) fn add(&mut self, kept: Kept, number: u64)
        ensures before { self.new.before ≡ (if is_some (spec.by self.old.last number) then self.old.last else self.old.before) }
        ensures last { self.new.last ≡ Some kept }
    {
        if by(&self.last, number).is_some() {
            self.before = self.last.take();
        }
        self.last = Some(kept);
    }

    /// The latest state that is kept after so many events at most.
    pub(crate) fn latest(&self, number: u64) -> Option<&Kept>
        ensures { option_map (λ k. k.now) result ≡ spec.latest self.now number }
    {
        match by(&self.last, number) {
            Some(kept) => Some(kept),
            None => by(&self.before, number),
        }
    }
}

// A state after so many events at most.
fn by(kept: &Option<Kept>, number: u64) -> Option<&Kept>
    ensures { option_map (λ k. k.now) result ≡ spec.by kept.now number }
{
    let kept = kept.as_ref()?;
    if kept.made() <= number {
        Some(kept)
    } else {
        None
    }
}
