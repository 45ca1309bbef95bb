// Why a run stopped.
ghost use Rattle.std.specs.Prelude.{◌≡◌, ◌++◌, OnOk};
ghost use Rattle.gdb_protocol.specs.Answers as spec;
ghost use Rattle.gdb_protocol.specs.declared.stop.Stop.TheVariants.{Fault, Write};

use crate::digits::push_digits;
use std::alloc::AllocError;

/// Why a run stopped.
#[derive(Clone, Copy, Debug, PartialEq, Eq, Drop)]
pub enum Stop {
    /// A step was made.
    Step,
    /// A break holds.
    Break,
    /// A write changed bytes that are watched, from this address on.
    Write(u64),
    /// Nothing lies further back.
    Beginning,
    /// The thread did what it may not.
    Fault,
    /// The run ended.
    End,
}

fn push_trapped(out: &mut Vec<u8>, thread: u8) -> Result<(), AllocError>
    ensures { OnOk result (out.new.items ≡ out.old.items ++ spec.trapped thread) }
{
    out.extend_from_slice(b"T05thread:")?;
    push_digits(out, &[thread])?;
    out.extend_from_slice(b";")
}

#[tactic(auto, unfolding(crate::specs::Answers::stop_text))]
fn push_write(out: &mut Vec<u8>, address: u64, thread: u8) -> Result<(), AllocError>
    ensures { OnOk result (out.new.items ≡ out.old.items ++ spec.stop_text (Write address) thread) }
{
    push_trapped(out, thread)?;
    out.extend_from_slice(b"watch:")?;
    push_digits(out, &address.to_be_bytes())?;
    out.extend_from_slice(b";")
}

#[tactic(auto, unfolding(crate::specs::Answers::stop_text))]
fn push_fault(out: &mut Vec<u8>, thread: u8) -> Result<(), AllocError>
    ensures { OnOk result (out.new.items ≡ out.old.items ++ spec.stop_text Fault thread) }
{
    out.extend_from_slice(b"T0bthread:")?;
    push_digits(out, &[thread])?;
    out.extend_from_slice(b";")
}

// A trap, and a word more.
fn push_trapped_by(out: &mut Vec<u8>, thread: u8, reason: &[u8]) -> Result<(), AllocError>
    ensures { OnOk result (out.new.items ≡ out.old.items ++ (spec.trapped thread ++ reason.now)) }
{
    push_trapped(out, thread)?;
    out.extend_from_slice(reason)
}

/// The reason of a stop, with its thread, is put at the end.
#[tactic(auto, unfolding(crate::specs::Answers::stop_text))]
pub fn push_stop(out: &mut Vec<u8>, stop: Stop, thread: u8) -> Result<(), AllocError>
    ensures { OnOk result (out.new.items ≡ out.old.items ++ spec.stop_text stop thread) }
{
    match stop {
        Stop::Step => push_trapped(out, thread),
        Stop::Break => push_trapped_by(out, thread, b"hwbreak:;"),
        Stop::Write(address) => push_write(out, address, thread),
        Stop::Beginning => push_trapped_by(out, thread, b"replaylog:begin;"),
        Stop::Fault => push_fault(out, thread),
        Stop::End => out.extend_from_slice(b"W00"),
    }
}
