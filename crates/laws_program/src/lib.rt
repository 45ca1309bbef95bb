//! The laws that join the program to the guarantee: whatever is asked of it, what it printed and saved for a run is that of a run of
//! the reference machine that is guarded, from a start whose text was measured, or from the state that a snapshot says.
#![tactic(auto)]

ghost use Rattle.laws_guarantee.specs.Reached.{ReachedLaw};
ghost use Rattle.laws_program.specs.GuaranteedLaw.{GuaranteedLaw};
ghost use Rattle.laws_program.specs.ProgramLaw.{ProgramLaw};
ghost use Rattle.laws_program.specs.ResumeLaw.{ResumeLaw};
ghost use Rattle.spec_reference.specs.Start.{boot_start, virtio_start};
ghost use Rattle.laws_program.specs.SnapResumed.{SnapResumedLaw};
ghost use Rattle.laws_program.specs.Starts.{MeasuredLaw, StartsLaw};

/// Where the program was asked for a run and answered 0, 1 or 7, its console, report and saved disk are those of a run in which
/// kernel mode carries out measured words alone, is entered at permitted entries alone, and is left by SRET, by a demotion or by
/// stopping alone; no byte of a protected page changes; and the machine stops exactly where a rule is broken.
pub fn law_program()
    ensures { ProgramLaw }
{}

/// Where the files lead a command to a run, the run begins in a measured start.
pub fn law_starts()
    ensures { StartsLaw }
{}

/// A measured start is a start, and the digests of its text join to the digest that was asked for.
pub fn law_measured()
    ensures { MeasuredLaw }
{}

/// Where the files lead `resume` to a run, it begins in the state that a snapshot says, which isn't refused; and what a run from there
/// reaches is sound, has its origins, and keeps the digests of the text.
pub fn law_resume()
    ensures { ResumeLaw }
{}

/// So each state that a run of the program comes through meets what the laws of `laws_guarantee` ask.
pub fn law_guaranteed()
    ensures { GuaranteedLaw }
{}

/// Each state that a run reaches from a start whose text was measured is sound, has its origins and the digests of its text.
pub fn law_reached()
    ensures { ReachedLaw }
{}

/// What `snap` saves is what `resume` reads: with these bytes under SNAPSHOT, the policy of the run and its script, `resume` is due
/// the run from the snapshot's state with the events that are left, and both together print and leave what the whole run does.
pub fn law_snap_resumed()
    ensures block { SnapResumedLaw boot_start }
    ensures virtio { SnapResumedLaw virtio_start }
{}
