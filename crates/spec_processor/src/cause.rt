// The causes of traps and exits.

ghost use Rattle.std.specs.Prelude.{◌≡◌};
ghost use Rattle.spec_processor.specs.Causes.{cause_number};

/// Why a trap or an exit is taken.
#[derive(Clone, Copy, PartialEq, Eq, Drop)]
pub enum Cause {
    InstrMisaligned,
    InstrAccess,
    Illegal,
    Breakpoint,
    LoadMisaligned,
    LoadAccess,
    StoreMisaligned,
    StoreAccess,
    UserCall,
    GuestCall,
    InstrPage,
    LoadPage,
    StorePage,
    GuestFetch,
    GuestLoad,
    Virtual,
    GuestStore,
}

impl Cause {
    /// The cause's number in the Privileged manual.
    #[inline(always)]
    pub fn number(self) -> u64
        ensures { result ≡ cause_number self }
    {
        match self {
            Cause::InstrMisaligned => 0,
            Cause::InstrAccess => 1,
            Cause::Illegal => 2,
            Cause::Breakpoint => 3,
            Cause::LoadMisaligned => 4,
            Cause::LoadAccess => 5,
            Cause::StoreMisaligned => 6,
            Cause::StoreAccess => 7,
            Cause::UserCall => 8,
            Cause::GuestCall => 10,
            Cause::InstrPage => 12,
            Cause::LoadPage => 13,
            Cause::StorePage => 15,
            Cause::GuestFetch => 20,
            Cause::GuestLoad => 21,
            Cause::Virtual => 22,
            Cause::GuestStore => 23,
        }
    }
}
