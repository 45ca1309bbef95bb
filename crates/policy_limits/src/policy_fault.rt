// Why a policy is refused.

ghost use Rattle.std.specs.Prelude.{◌≡◌};
ghost use Rattle.policy_limits.specs.PolicyFaults.{policy_fault_number};

/// What is wrong with the text of a policy, or with its values.
#[derive(Clone, Copy, Debug, Drop)]
pub enum PolicyFault {
    /// It is no TOML text.
    NotToml,
    /// A key is missing.
    MissingKey,
    /// A key is unknown.
    UnknownKey,
    /// A value has a wrong kind, or an inner list a wrong length.
    WrongKind,
    /// Hexadecimal digits are wrong, or too few or too many.
    BadHexadecimal,
    /// A number, a length or an address is beyond its limit.
    BeyondLimit,
    /// A name was met before.
    RepeatedName,
    /// The format is neither 1 nor 2.
    OtherFormat,
    /// Sites don't ascend, or they overlap.
    NotAscending,
    /// An entry was met before, in format 2.
    RepeatedEntry,
}

impl PolicyFault {
    /// The fault's number in the line that refuses a policy.
    pub fn number(self) -> u8
        ensures { result ≡ policy_fault_number self }
    {
        match self {
            PolicyFault::NotToml => 1,
            PolicyFault::MissingKey => 2,
            PolicyFault::UnknownKey => 3,
            PolicyFault::WrongKind => 4,
            PolicyFault::BadHexadecimal => 5,
            PolicyFault::BeyondLimit => 6,
            PolicyFault::RepeatedName => 7,
            PolicyFault::OtherFormat => 8,
            PolicyFault::NotAscending => 9,
            PolicyFault::RepeatedEntry => 10,
        }
    }
}
