// What is debugged.
ghost use Rattle.std.specs.Thread.{IsSync};
ghost use Rattle.std.specs.Prelude.{◌≡◌, ◌<◌, ◌≤◌, ℕ, IfOk, OnOk, option_map, slice_get, length, nat_lt};
ghost use Rattle.spec_processor.specs.Regions.{max_ram_pages};
ghost use Rattle.spec_reference.specs.SavedStates.{saved_hart};
ghost use Rattle.spec_reference.specs.States.{protections_of};
ghost use Rattle.debug_session.specs.Places.{place_name};
ghost use Rattle.debug_session.specs.Rows.{IsRow};
ghost use Rattle.debug_session.specs.Runs.{Run, after, events_left, last_turn, next_turn, place_of, state};
ghost use Rattle.debug_session.specs.Sessions.{lines_of};

use crate::places::Place;
use spec_processor::Lines;
use spec_reference::saved_machine::SavedHart;
use std::alloc::{AllocError, Global};
use std::thread::Threads;
use sv_types::{Counts, Note, Protection, Verdict};

/// A run that is debugged. It can begin anew, and go back to states that are kept.
pub trait Target {
    /// It stands where a run is.
    ghost stands: { Self → Run → Type 0 };

    /// No more events than these are left.
    fn most_left(&self) -> u64
        ensures { (run : Run) → stands self.now run → events_left run ≤ result };

    /// Whether an event is left.
    fn is_left(&self) -> bool
        ensures { (run : Run) → stands self.now run → result ≡ nat_lt run.made (length run.events) };

    /// The events that are made.
    fn events_made(&self) -> u64
        ensures made { (run : Run) → stands self.now run → result ≡ run.made }
        ensures within { (run : Run) → stands self.now run → run.made ≤ length run.events };

    /// The hart whose turn is next.
    fn next_turn(&self) -> Option<u8>
        ensures { (run : Run) → stands self.now run → result ≡ next_turn run };

    /// The number of events before a hart's last turn among those that are made. None where it had none.
    fn last_turn(&self, alloc: Global, hart: u8) -> Result<Option<u64>, AllocError>
        ensures { IfOk result (λ number. (run : Run) → stands self.now run → number ≡ last_turn hart run) };

    /// Where a hart is about to fetch. None where it is stopped or there is none.
    fn fetch_place(&self, hart: u8) -> Option<u64>
        ensures { (run : Run) → stands self.now run → result ≡ place_of run hart };

    /// How the run stands.
    fn verdict(&self) -> Verdict
        ensures { (run : Run) → stands self.now run → result ≡ (state run).journal.verdict };

    /// The number of harts.
    fn hart_count(&self) -> u8
        ensures { (run : Run) → stands self.now run → result ≡ length (state run).harts };

    /// A hart as plain data.
    fn hart(&self, hart: u8) -> Option<SavedHart>
        ensures { (run : Run) → stands self.now run → result ≡ option_map (saved_hart (state run).devices.clock hart) (slice_get (state run).harts hart) };

    /// The wires that a hart sees.
    fn lines(&self, hart: u8) -> Option<Lines>
        ensures { (run : Run) → stands self.now run → result ≡ lines_of run hart };

    /// The first 4,096 notes.
    fn notes(&self) -> &[Note]
        ensures { (run : Run) → stands self.now run → result.now ≡ (state run).journal.notes };

    /// What happened so far, counted.
    fn counts(&self) -> Counts
        ensures { (run : Run) → stands self.now run → result ≡ (state run).journal.counts };

    /// The name of a place by the symbols of the run's kernel. Nothing where it has none.
    fn place_name(&self, alloc: Global, place: Place) -> Result<Vec<u8>, AllocError>
        ensures { IfOk result (λ name. (run : Run) → stands self.now run → name.items ≡ place_name run.kernel place) };

    /// How each page of RAM is guarded.
    fn protections(&self) -> &[Protection]
        ensures state { (run : Run) → stands self.now run → result.now ≡ protections_of (state run) }
        ensures few { length result.now ≤ max_ram_pages };

    /// The bytes of guest RAM.
    fn ram(&self) -> &[u8]
        ensures { (run : Run) → stands self.now run → result.now ≡ (state run).ram };

    /// The bytes that the console printed so far.
    fn console(&self) -> &[u8]
        ensures { (run : Run) → stands self.now run → result.now ≡ (state run).journal.printed };

    /// Makes the next events that are alike, where one is left: at most so many, and none after the run has ended. Answers how many.
    fn advance_row(&mut self, most: u64) -> Result<u64, AllocError>
        requires { 0 < most }
        ensures few { IfOk result (λ count. count ≤ most) }
        ensures row { IfOk result (λ count. (run : Run) → stands self.old run → run.made < length run.events → IsRow stands run count self.new) };

    /// Begins anew.
    fn restart<R: Threads + Sync>(&mut self, rt: &R, alloc: Global) -> Result<(), AllocError>
        requires { IsSync R.row }
        ensures { OnOk result ((run : Run) → stands self.old run → stands self.new (after run 0)) };

    /// May keep the state that it is in, to go back there. `last` is the number of events at the last place so far that a search
    /// may lead back to: of two states that are kept after that many events at most, the later one is of use. Where memory runs
    /// out, nothing is kept.
    fn keep(&mut self, alloc: Global, last: u64)
        ensures { (run : Run) → stands self.old run → stands self.new run };

    /// Goes to a state after at most so many events: to one that is kept, or to the beginning. Answers how many are made there.
    fn rewind<R: Threads + Sync>(
        &mut self,
        rt: &R,
        alloc: Global,
        number: u64,
    ) -> Result<u64, AllocError>
        requires { IsSync R.row }
        ensures few { IfOk result (λ made. made ≤ number) }
        ensures there { IfOk result (λ made. (run : Run) → stands self.old run → stands self.new (after run made)) };
}
