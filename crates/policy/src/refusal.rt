// Why a policy is refused.

ghost use Rattle.policy.specs.declared.refusal.PolicyRefusal.TheVariants.{Fault, Memory};
ghost use Rattle.std.specs.Prelude.{◌≡◌};

use policy_limits::PolicyFault;
use std::alloc::{AllocError, AllocFailed};
use thiserror::Error;

/// Why a policy's text is refused.
#[derive(Clone, Copy, Debug, Drop, Error)]
pub enum PolicyRefusal {
    /// The first fault of the text.
    #[error("a fault of the policy")]
    Fault(PolicyFault),
    #[error("out of memory")]
    Memory,
}

impl From<PolicyFault> for PolicyRefusal {
    ghost from_gives = { λ fault e. e ≡ Fault fault };

    fn from(fault: PolicyFault) -> PolicyRefusal {
        PolicyRefusal::Fault(fault)
    }
}

impl From<AllocError> for PolicyRefusal {
    ghost from_gives = { λ _ e. e ≡ Memory };

    fn from(_e: AllocError) -> PolicyRefusal {
        PolicyRefusal::Memory
    }
}

impl<T: Drop> From<AllocFailed<T>> for PolicyRefusal {
    ghost from_gives = { λ _ e. e ≡ Memory };

    fn from(_e: AllocFailed<T>) -> PolicyRefusal {
        PolicyRefusal::Memory
    }
}
