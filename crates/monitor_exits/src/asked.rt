// What a call asks.

ghost use Rattle.std.specs.Prelude.{◌≡◌, true};
ghost use Rattle.spec_reference.specs.Calls.{Facts, asked_by};
ghost use Rattle.spec_reference.specs.ModuleCalls.{answer_of, module_call};
ghost use Rattle.monitor_exits.specs.Asking.{is_about_modules};

use rv64_exec::Regs;
use spec_processor::{A0, A1, A2, A3, A6, A7};
use spec_reference::Extension;
use std::marker::Model;

/// What a call asks, as its registers say.
#[derive(Clone, Copy, Drop)]
pub struct Asked {
    /// The number of the extension.
    pub extension: u64,
    /// The number of the function in the extension.
    pub function: u64,
    pub a0: u64,
    pub a1: u64,
    pub a2: u64,
    pub a3: u64,
}

impl Model for Asked {
    ghost use Rattle.spec_reference.specs.Calls.{Asked as Call};

    ghost Value = { Call };

    ghost use Rattle.monitor_exits.specs.Asking.{call_of, fields_of};

    ghost view = { call_of };

    ghost inverse = { fields_of };
}

impl Asked {
    /// What the registers of a hart that calls ask.
    pub fn by(regs: &Regs) -> Asked
        ensures { result ≡ asked_by regs.now }
    {
        Asked {
            extension: regs.get(A7),
            function: regs.get(A6),
            a0: regs.get(A0),
            a1: regs.get(A1),
            a2: regs.get(A2),
            a3: regs.get(A3),
        }
    }

    /// Whether it is a call about modules.
    #[tactic(auto, using(crate::proofs::Modules::modules_answer))]
    pub fn is_about_modules(&self) -> bool
        ensures about { result ≡ is_about_modules self.now }
        ensures modules { (f : Facts) → result ≡ true → answer_of f self.now ≡ module_call f self.now }
    {
        matches!(
            Extension::from_number(self.extension),
            Some(Extension::Modules)
        )
    }
}
