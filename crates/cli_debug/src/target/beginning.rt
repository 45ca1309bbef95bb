// Where a run begins.
ghost use Rattle.std.specs.Thread.{IsSync};
ghost use Rattle.std.specs.Prelude.{◌≡◌, ℕ, List, IfOk, OnOk, true};
ghost use Rattle.sv_types.specs.Schedule.{Schedule};
ghost use Rattle.spec_reference.specs.States.{State};
ghost use Rattle.spec_hardware.specs.Reaches.{IsNew};
ghost use Rattle.snapshot_format.specs.Snapshots as form;
ghost use Rattle.snapshot_format.specs.ResumedStates.{resumed_state};
ghost use Rattle.laws_resume.specs.Starts.{journal_at_boot};
ghost use Rattle.laws_resume.specs.TextPages.{digested_text};
ghost use Rattle.debug_session.specs.Places.{place_name};
ghost use Rattle.cli_debug.specs.Keeping.{IsMeasuredStart};

use debug_session::Place;
use machine::Machine;
use script::Script;
use snapshot_format::{Snapshot, TextPage};
use std::alloc::{AllocError, Global};
use std::thread::Threads;

/// A machine before its first event, and its text: each approved page with its digest.
#[derive(Drop)]
pub struct Begun {
    pub machine: Machine,
    pub text: Vec<TextPage>,
}

/// Where a run begins, as often as asked.
pub trait Beginning {
    /// The kernel's file.
    ghost kernel: { Self → List ℕ };

    /// The state that it begins from.
    ghost start: { Self → State };

    /// The events that it may make.
    ghost schedule: { Self → Schedule };

    /// A machine before its first event.
    fn begin<R: Threads + Sync>(&self, rt: &R, alloc: Global) -> Result<Begun, AllocError>
        requires { IsSync R.row }
        ensures new { IfOk result (λ b. IsNew b.machine (start self.now)) }
        ensures journal { IfOk result (λ b. b.machine.journal ≡ journal_at_boot) }
        ensures text { IfOk result (λ b. b.text.items ≡ digested_text (start self.now)) }
        ensures measured { OnOk result (IsMeasuredStart (start self.now)) };

    /// A machine that goes on from a snapshot under the same policy. A snapshot that this refuses is told as out of memory.
    fn go_on<R: Threads + Sync>(
        &self,
        rt: &R,
        alloc: Global,
        snapshot: Snapshot,
    ) -> Result<Machine, AllocError>
        requires sync { IsSync R.row }
        requires form { form.snapshot.has (form.contents snapshot) ≡ true }
        ensures new { IfOk result (λ m. IsNew m (resumed_state (start self.now).rules (form.contents snapshot))) }
        ensures journal { IfOk result (λ m. m.journal ≡ (resumed_state (start self.now).rules (form.contents snapshot)).journal) };

    /// Its events, from the first on.
    fn script(&self, alloc: Global) -> Result<Script, AllocError>
        ensures { IfOk result (λ s. s ≡ schedule self.now) };

    /// The name of a place by the kernel's symbols. Nothing where it has none.
    fn place_name(&self, alloc: Global, place: Place) -> Result<Vec<u8>, AllocError>
        ensures { IfOk result (λ name. name.items ≡ place_name (kernel self.now) place) };
}
