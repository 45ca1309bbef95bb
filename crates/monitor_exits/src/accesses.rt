// Refused loads and stores.

ghost use Rattle.std.specs.Prelude.{◌≡◌, IfSome};
ghost use Rattle.spec_processor.specs.Requests.{IsRequest};
ghost use Rattle.spec_processor.specs.declared.mode.Mode.{Mode as Privilege};
ghost use Rattle.spec_hardware.specs.Served.{load_answer, store_answer, write_answer};
ghost use Rattle.monitor_exits.specs.Possible.{IsPossible};

use crate::addresses::{device_gpa, gpa_in_ram, is_implicit};
use crate::fetches::raises;
use host_mem::HostMem;
use spec_hardware::{ExitAnswer, Load, Store};
use spec_processor::{Cause, Effect, Exit};

/// A refused load: a plain one reaches a device's register.
#[tactic(auto, unfolding(spec_hardware::specs::Served::load_answer))]
pub(crate) fn load_answer(exit: &Exit, asked: Option<Effect>) -> ExitAnswer
    requires { IfSome asked IsRequest }
    ensures answer { result ≡ load_answer exit.now asked }
    ensures possible { (mode : Privilege) → IsPossible mode result }
{
    match asked {
        Some(
            Effect::Load {
                rd,
                addr: _,
                width,
                signed,
            },
        ) => ExitAnswer::LoadsDevice(Load {
            rd,
            address: exit.stval,
            width,
            signed,
            gpa: device_gpa(exit),
        }),
        _ => raises(Cause::LoadAccess, exit.stval),
    }
}

// A refused store outside RAM: a plain one reaches a device's register.
#[tactic(auto, unfolding(spec_hardware::specs::Served::store_answer))]
fn store_answer(exit: &Exit, asked: Option<Effect>) -> ExitAnswer
    ensures answer { result ≡ store_answer exit.now asked }
    ensures possible { (mode : Privilege) → IsPossible mode result }
{
    match asked {
        Some(
            Effect::Store {
                addr: _,
                width,
                value,
            },
        ) => ExitAnswer::StoresDevice(Store {
            address: exit.stval,
            gpa: device_gpa(exit),
            width,
            value,
        }),
        _ => raises(Cause::StoreAccess, exit.stval),
    }
}

/// A refused write: of a page of RAM it stops the machine, since only protected pages refuse one.
#[tactic(auto, unfolding(spec_hardware::specs::Served::write_answer))]
pub(crate) fn write_answer(mem: &HostMem, exit: &Exit, asked: Option<Effect>) -> ExitAnswer
    ensures answer { result ≡ write_answer mem.now.ram exit.now asked }
    ensures possible { (mode : Privilege) → IsPossible mode result }
{
    if is_implicit(exit) {
        return raises(Cause::StoreAccess, exit.stval);
    }
    match gpa_in_ram(mem, exit, 1) {
        Some(gpa) => ExitAnswer::StopsAtWrite { gpa },
        None => store_answer(exit, asked),
    }
}
