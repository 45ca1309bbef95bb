// Packets.

/// A thread, by its number from 1 on, or any.
#[derive(Clone, Copy, Debug, PartialEq, Eq, Drop)]
pub enum Thread {
    Any,
    Number(u64),
}

/// So many bytes from a place on.
#[derive(Clone, Copy, Debug, PartialEq, Eq, Drop)]
pub struct Range {
    pub start: u64,
    pub length: u64,
}

/// How a run goes on.
#[derive(Clone, Copy, Debug, PartialEq, Eq, Drop)]
pub enum Motion {
    Continue,
    Step,
    ContinueBack,
    StepBack,
}

/// What a packet asks for.
#[derive(Clone, Copy, Debug, PartialEq, Eq, Drop)]
pub enum Packet {
    /// No packet that is known.
    Unknown,
    /// A known packet whose arguments are of no form.
    Malformed,
    /// One that would change the machine.
    Changes,
    /// What this side supports.
    Supported,
    /// From here on packets aren't acknowledged.
    StartNoAcks,
    /// A part of the target's description.
    Description(Range),
    /// Why the run stopped.
    StopReason,
    /// All registers of the chosen thread.
    Registers,
    /// One of them.
    Register(u64),
    Memory(Range),
    /// The thread whose registers and memory are asked for.
    Choose(Thread),
    /// The thread that goes on.
    ChooseToMove(Thread),
    IsAlive(Thread),
    CurrentThread,
    FirstThreads,
    NextThreads,
    /// A text about a thread.
    ThreadText(Thread),
    IsAttached,
    /// A break at the first address of a range.
    SetBreak(Range),
    ClearBreak(Range),
    /// A watch of writes.
    SetWatch(Range),
    ClearWatch(Range),
    /// How a run may go on.
    MotionsAsked,
    /// A run goes on by a thread.
    Resume(Motion, Thread),
    /// A command of this side's own, as a text.
    Command,
    Detach,
    Kill,
}
