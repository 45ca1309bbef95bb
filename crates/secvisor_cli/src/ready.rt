// What is made ready of a command, before anything is written.
ghost use Rattle.std.specs.Prelude.{◌≡◌};
ghost use Rattle.secvisor_cli.specs.declared.ready.Stop.TheVariants.{Refused, Memory};
ghost use Rattle.cli_plans.specs.Plans.{binding_refusal, making_fault};
ghost use Rattle.secvisor_cli.specs.Ready.{run_ready, stop_of, stop_of_binding, stop_of_making, stop_of_unread};

use cli_plans::{FileFault, Refusal, Unread};
use machine::{BootRefusal, Machine};
use policy_limits::PolicyFault;
use policy_making::{BindFault, BindRefusal, MakingFault, MakingRefusal};
use script::Script;
use std::alloc::{AllocError, AllocFailed};
use sv_types::Digest;

/// What is ready of a command.
#[derive(Drop)]
pub enum Ready<'a> {
    Run(PreparedRun<'a>),
    Save(Made<'a>),
}

/// A policy that was made: its name and its text, and the line that is printed after it.
#[derive(Drop)]
pub struct Made<'a> {
    pub name: &'a str,
    pub text: Vec<u8>,
    pub line: String,
}

/// A booted machine, and the events that it is to make: the first `events` of the script, or all where there are fewer.
#[derive(Drop)]
pub struct PreparedRun<'a> {
    pub machine: Machine,
    pub script: Script,
    pub events: u64,
    /// The name under which the disk is saved after the report, where it is.
    pub save: Option<&'a str>,
}

/// What is ready of a run, and the digests of its text's pages, ascending, by which the machine was measured.
#[derive(Drop)]
pub struct MeasuredRun<'a> {
    pub run: PreparedRun<'a>,
    pub digests: Vec<Digest>,
}

/// Why nothing is ready.
#[derive(Clone, Copy, Drop)]
pub enum Stop {
    Refused(Refusal),
    /// Memory ran out.
    Memory,
}

/// What is ready of a command that runs a machine.
pub fn run_ready(run: Result<PreparedRun<'_>, Stop>) -> Result<Ready<'_>, Stop>
    ensures { result ≡ run_ready run.entry }
{
    match run {
        Ok(booted) => Ok(Ready::Run(booted)),
        Err(stop) => Err(stop),
    }
}

impl From<Unread> for Stop {
    ghost from_gives = { λ u s. s ≡ stop_of_unread u };

    fn from(unread: Unread) -> Self {
        match unread {
            Unread::Refused(refusal) => Stop::Refused(refusal),
            Unread::Memory => Stop::Memory,
        }
    }
}

impl From<Refusal> for Stop {
    ghost from_gives = { λ r s. s ≡ Refused r };

    fn from(refusal: Refusal) -> Self {
        Stop::Refused(refusal)
    }
}

impl From<AllocError> for Stop {
    ghost from_gives = { λ _ s. s ≡ Memory };

    fn from(_: AllocError) -> Self {
        Stop::Memory
    }
}

impl<T: Drop> From<AllocFailed<T>> for Stop {
    ghost from_gives = { λ _ s. s ≡ Memory };

    fn from(_: AllocFailed<T>) -> Self {
        Stop::Memory
    }
}

// The fault of the file for which no policy is made.
fn file_fault(fault: MakingFault) -> FileFault
    ensures { result ≡ making_fault fault }
{
    match fault {
        MakingFault::Image(fault) => FileFault::Image(fault),
        MakingFault::Module(fault) => FileFault::Module(fault),
        MakingFault::TooManySites => FileFault::Policy(PolicyFault::BeyondLimit),
    }
}

impl From<MakingRefusal> for Stop {
    ghost from_gives = { λ r s. s ≡ stop_of_making r };

    fn from(refusal: MakingRefusal) -> Self {
        match refusal {
            MakingRefusal::Fault(fault) => Stop::Refused(Refusal::File {
                fault: file_fault(fault),
            }),
            MakingRefusal::Memory => Stop::Memory,
        }
    }
}

// Why a policy's entries aren't bound.
fn binding_refusal(fault: BindFault) -> Refusal
    ensures { result ≡ binding_refusal fault }
{
    match fault {
        BindFault::Convert(fault) => Refusal::File {
            fault: FileFault::Convert(fault),
        },
        BindFault::Measure { found, wanted } => Refusal::Measure { found, wanted },
    }
}

impl From<BindRefusal> for Stop {
    ghost from_gives = { λ r s. s ≡ stop_of_binding r };

    fn from(refusal: BindRefusal) -> Self {
        match refusal {
            BindRefusal::Fault(fault) => Stop::Refused(binding_refusal(fault)),
            BindRefusal::Memory => Stop::Memory,
        }
    }
}

impl From<BootRefusal> for Stop {
    ghost from_gives = { λ b s. s ≡ stop_of b };

    fn from(refusal: BootRefusal) -> Self {
        match refusal {
            BootRefusal::Measure { found, wanted } => {
                Stop::Refused(Refusal::Measure { found, wanted })
            }
            BootRefusal::Entry { entry } => Stop::Refused(Refusal::Entry { entry }),
            BootRefusal::Memory => Stop::Memory,
        }
    }
}
