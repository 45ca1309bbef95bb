//! The outside of the program: files by name, and a sink for what is printed.
#![tactic(auto)]

ghost use Rattle.std.specs.Prelude.{◌≡◌, ◌≢◌, ◌<◌, ◌≤◌, ◌-◌, ℕ, List, [], ◌∷◌, false, Some, length, take, OnOk, OnErr, IfOk, IsTrue};
ghost use Rattle.host_io.specs.Outside.{FilesState, SinkState, MayTry, ReadLeaves, ReadTells, TryFails, after_saving, after_taking, WriteFails};
ghost use Rattle.spec_processor.specs.Counters.{CanCount};

mod calls;
mod memory_files;
mod memory_sink;
pub mod os_files;
mod trouble;
mod writing;

pub use calls::{call_number, is_to_fail};
pub use memory_files::MemFiles;
pub use memory_sink::MemSink;
use std::alloc::Global;
pub use sv_types::Failed;
pub use trouble::{Trouble, status_of_end};
pub use writing::write_all;

/// Why a file isn't read.
#[derive(Clone, Copy, Debug, PartialEq, Eq, Drop)]
pub enum FileRefusal {
    /// The name isn't held.
    Absent,
    /// The read failed.
    Failed,
    /// The name holds more bytes than the limit.
    TooLong,
    /// Memory ran out.
    Memory,
}

/// A save failed; the name may hold anything.
#[derive(Clone, Copy, Drop)]
pub struct SaveFailed;

/// Files by name.
pub trait Files {
    /// What the files hold, where they tell it, and how often they failed.
    ghost state: { Self → FilesState };

    /// All bytes that a name holds, if they are at most `limit`. The name has to be one that may be asked for next, with
    /// this limit.
    fn read(&mut self, alloc: Global, name: &str, limit: usize) -> Result<Vec<u8>, FileRefusal>
        requires permitted { IsTrue ((state self.old).permits ((name.now, limit) ∷ [])) }
        requires count { CanCount (state self.old).read_faults }
        ensures tells { ReadTells (state self.old) name.now limit result }
        ensures leaves { ReadLeaves (state self.old) (state self.new) name.now limit result };

    /// Puts bytes under a name, where these may be saved there next: that is used up, also where the save fails. Other names
    /// stay.
    fn save(&mut self, name: &str, bytes: &[u8]) -> Result<(), SaveFailed>
        requires permitted { IsTrue ((state self.old).permits_save ((name.now, bytes.now) ∷ [])) }
        requires count { CanCount (state self.old).save_faults }
        ensures saved { OnOk result (IsTrue (state self.old).tells → (state self.new).held name.now ≡ Some bytes.now) }
        ensures others { (other : List ℕ) → other ≢ name.now → (state self.new).held other ≡ (state self.old).held other }
        ensures fault { OnErr result ((state self.old).save_faults < (state self.new).save_faults) }
        ensures no_fault { OnOk result ((state self.new).save_faults ≡ (state self.old).save_faults) }
        ensures leaves { state self.new ≡
            record (after_saving name.now bytes.now (state self.old)) { held = (state self.new).held; save_faults = (state self.new).save_faults } };

    /// Whether a file can be made under a name, where one may be saved there next: nothing is saved, and the permission isn't
    /// used up. A save may fail all the same.
    fn try_save(&mut self, name: &str) -> Result<(), SaveFailed>
        requires permitted { MayTry name.now (state self.old) }
        requires count { CanCount (state self.old).save_faults }
        ensures free { OnOk result ((state self.old).bars name.now ≡ false) }
        ensures same { OnOk result (state self.new ≡ state self.old) }
        ensures failed { OnErr result (TryFails (state self.old) (state self.new)) };
}

/// Where lines and console bytes go.
pub trait Sink {
    /// What the sink took, where it tells it, and how often it failed.
    ghost state: { Self → SinkState };

    /// Takes the first bytes of a piece, and says how many: at least one of a piece that isn't empty.
    fn write(&mut self, piece: &[u8]) -> Result<usize, Failed>
        requires is_open { IsTrue (state self.old).is_open }
        requires count { CanCount (state self.old).faults }
        ensures took { IfOk result (λ n. state self.new ≡ after_taking (state self.old) (take n piece.now)) }
        ensures within { IfOk result (λ n. n ≤ length piece.now) }
        ensures progress { IfOk result (λ n. 0 < length piece.now → 0 < n) }
        ensures failed { OnErr result (WriteFails (state self.old) (state self.new)) };

    /// Is told now and then how many events were made so far, and how many of them are turns. The sink may tell a person; it
    /// stays as it is.
    fn note_progress(&mut self, _events: u64, _turns: u64)
        ensures { state self.new ≡ state self.old }
    {}
}
