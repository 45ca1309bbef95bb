// Why a file is refused.
ghost use Rattle.std.specs.Prelude.{◌≡◌};
ghost use Rattle.cli_plans.specs.Refusals.{fault_number, fault_part, part_name};

use elf64_reloc::ObjectFault;
use policy_limits::PolicyFault;
use policy_making::ConvertFault;
use snapshot_format::SnapRefusal;
use snapshot_format::resume::ResumeRefusal;
use sv_types::ImageFault;

/// A file by what it is for.
#[derive(Clone, Copy, Drop)]
pub enum Part {
    Flat,
    Policy,
    Image,
    Disk,
    Script,
    Module,
    /// A policy and a kernel, of which a policy with bound entries is made.
    Convert,
    /// A machine that was saved.
    Snapshot,
}

/// What is wrong with a file.
#[derive(Clone, Copy, Drop)]
pub enum FileFault {
    /// It is longer than its part may be.
    Longer { part: Part },
    /// A flat text isn't whole pages.
    FlatPages,
    /// The first fault of a policy.
    Policy(PolicyFault),
    /// The first fault of a kernel's image.
    Image(ImageFault),
    /// The first fault of a module's object.
    Module(ObjectFault),
    /// A disk isn't whole sectors.
    DiskSectors,
    /// The first line of a script that is none.
    ScriptLine { line: u64 },
    /// Why a policy's entries aren't bound.
    Convert(ConvertFault),
    /// Why bytes are no snapshot.
    Snapshot(SnapRefusal),
    /// Why a machine can't go on from a snapshot.
    Resume(ResumeRefusal),
}

impl Part {
    /// The part's name in a line.
    pub fn name(self) -> &'static str
        ensures { result.now ≡ part_name self }
    {
        match self {
            Part::Flat => "flat",
            Part::Policy => "policy",
            Part::Image => "image",
            Part::Disk => "disk",
            Part::Script => "script",
            Part::Module => "module",
            Part::Convert => "convert",
            Part::Snapshot => "snapshot",
        }
    }
}

impl FileFault {
    /// The part whose file has the fault.
    pub fn part(self) -> Part
        ensures { result ≡ fault_part self }
    {
        match self {
            FileFault::Longer { part } => part,
            FileFault::FlatPages => Part::Flat,
            FileFault::Policy(_) => Part::Policy,
            FileFault::Image(_) => Part::Image,
            FileFault::Module(_) => Part::Module,
            FileFault::DiskSectors => Part::Disk,
            FileFault::ScriptLine { line: _ } => Part::Script,
            FileFault::Convert(_) => Part::Convert,
            FileFault::Snapshot(_) | FileFault::Resume(_) => Part::Snapshot,
        }
    }

    /// The fault's number in the line that refuses the file.
    pub fn number(self) -> u64
        ensures { result ≡ fault_number self }
    {
        match self {
            FileFault::Longer { part: _ } => 0,
            FileFault::FlatPages | FileFault::DiskSectors => 1,
            FileFault::Policy(fault) => u64::from(fault.number()),
            FileFault::Image(fault) => u64::from(fault.number()),
            FileFault::Module(fault) => u64::from(fault.number()),
            FileFault::ScriptLine { line } => line,
            FileFault::Convert(fault) => u64::from(fault.number()),
            FileFault::Snapshot(refusal) => u64::from(refusal.number()),
            FileFault::Resume(refusal) => u64::from(refusal.number()),
        }
    }
}
