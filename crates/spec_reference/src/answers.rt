// What a call from kernel mode is answered: what becomes of the hart that called, and what happens besides.

ghost use Rattle.std.specs.Prelude.{◌≡◌};
ghost use Rattle.spec_reference.specs.Calls.{code, value, plain, extension_of};

use sv_types::{
    BASE_EXTENSION, FENCE_EXTENSION, GET_CHAR_EXTENSION, HART_STATE_EXTENSION, INTERRUPT_EXTENSION,
    MODULES_EXTENSION, ModulePlacement, PUT_CHAR_EXTENSION, RESET_EXTENSION, SET_TIMER_EXTENSION,
    SHUT_DOWN_EXTENSION, SbiCode, Span, TIMER_EXTENSION,
};

/// An extension of SBI. The first four are legacy calls.
#[derive(Clone, Copy, Drop)]
pub enum Extension {
    SetTimer,
    PutChar,
    GetChar,
    ShutDown,
    Base,
    Timer,
    Interrupt,
    Fence,
    HartState,
    Reset,
    Modules,
}

impl Extension {
    /// The extension of a number.
    #[tactic(auto, unfolding(crate::specs::Calls::extension_of))]
    pub fn from_number(number: u64) -> Option<Extension>
        ensures { result ≡ extension_of number }
    {
        match number {
            SET_TIMER_EXTENSION => Some(Extension::SetTimer),
            PUT_CHAR_EXTENSION => Some(Extension::PutChar),
            GET_CHAR_EXTENSION => Some(Extension::GetChar),
            SHUT_DOWN_EXTENSION => Some(Extension::ShutDown),
            BASE_EXTENSION => Some(Extension::Base),
            TIMER_EXTENSION => Some(Extension::Timer),
            INTERRUPT_EXTENSION => Some(Extension::Interrupt),
            FENCE_EXTENSION => Some(Extension::Fence),
            HART_STATE_EXTENSION => Some(Extension::HartState),
            RESET_EXTENSION => Some(Extension::Reset),
            MODULES_EXTENSION => Some(Extension::Modules),
            _ => None,
        }
    }
}

/// What becomes of the hart that called.
#[derive(Clone, Copy, Drop)]
pub enum Reply {
    /// It goes on, with a0 set.
    Gives { a0: u64 },
    /// It goes on, with a0 and a1 set.
    Replies { a0: u64, a1: u64 },
    /// It stays at its call.
    Stays,
    /// It stays at its call, and is stopped.
    Stops,
}

impl Reply {
    /// A code without a value.
    pub fn of_code(how: SbiCode) -> Reply
        ensures { result ≡ code how }
    {
        Reply::Replies {
            a0: how.word(),
            a1: 0,
        }
    }

    /// Success with a value.
    pub fn of_value(number: u64) -> Reply
        ensures { result ≡ value number }
    {
        Reply::Replies { a0: 0, a1: number }
    }
}

/// What happens besides.
#[derive(Clone, Copy, Drop)]
pub enum SideEffect {
    Nothing,
    /// The timer of the hart that called is set.
    SetsTimer { at: u64 },
    /// The low byte of a value is printed.
    Prints { value: u64 },
    /// The first byte of input that waits is taken.
    TakesInput,
    /// The machine ends.
    ShutsDown,
    /// The harts that a mask and a base name get their software interrupt.
    SendsInterrupts { mask: u64, base: u64 },
    /// Another hart begins at an address, with its number and a value, and its timer never due.
    StartsHart { other: u8, pc: u64, opaque: u64 },
    /// A load begins: the module's pages are held.
    BeginsLoad { about: ModulePlacement, pages: u64 },
    /// A load is refused by a code.
    RefusesLoad { id: u64, code: SbiCode },
    /// The load under way ends with the module's pages approved.
    ApprovesModule { about: ModulePlacement },
    /// It ends with them free again.
    ReleasesModule { about: ModulePlacement },
    /// A module's pages become free.
    UnloadsModule { about: ModulePlacement },
    /// An unload is refused by a code.
    RefusesUnload { id: u64, code: SbiCode },
    /// The kernel's init text becomes free.
    RetiresInit { span: Span },
    /// That is refused by a code.
    RefusesRetire { code: SbiCode },
}

/// An answer.
#[derive(Clone, Copy, Drop)]
pub struct Answer {
    pub reply: Reply,
    pub side_effect: SideEffect,
}

impl Answer {
    /// A reply with nothing besides.
    pub fn plain(reply: Reply) -> Answer
        ensures { result ≡ plain reply }
    {
        Answer {
            reply,
            side_effect: SideEffect::Nothing,
        }
    }
}
