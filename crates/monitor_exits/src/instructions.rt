// The instruction that an exit tells of.

ghost use Rattle.std.specs.Prelude.{◌≡◌, ◌%◌, IfSome, IsTrue};
ghost use Rattle.spec_processor.specs.Encoding.{fits};
ghost use Rattle.spec_processor.specs.Effects.{effect_of};
ghost use Rattle.spec_processor.specs.Requests.{IsRequest};
ghost use Rattle.spec_hardware.specs.Served.{transformed_effect};
ghost use Rattle.spec_processor.specs.Bytes.{instruction_size};

use hart::Hart;
use rv64_decode::{Instr, decode};
use rv64_exec::effect;
use spec_processor::Effect;

// What an instruction asks on a hart.
#[tactic(auto, using(laws_processor::proofs::EffectRequests::is_request))]
fn requested_effect(hart: &Hart, instr: &Instr) -> Effect
    requires aligned { hart.now.core.pc % instruction_size ≡ 0 }
    requires fits { IsTrue (fits instr.now) }
    ensures effect { result ≡ effect_of instr.now hart.now.core.regs hart.now.core.pc }
    ensures request { IsRequest result }
{
    effect(instr, &hart.core.regs, hart.core.pc)
}

/// What the transformed instruction of an exit asks, of which the address doesn't count.
#[tactic(auto, unfolding(spec_hardware::specs::Served::transformed_effect))]
pub(crate) fn transformed_effect(hart: &Hart, htinst: u32) -> Option<Effect>
    requires aligned { hart.now.core.pc % instruction_size ≡ 0 }
    ensures effect { result ≡ transformed_effect htinst hart.now.core.regs hart.now.core.pc }
    ensures request { IfSome result IsRequest }
{
    match decode(htinst) {
        Some(instr) => Some(requested_effect(hart, &instr)),
        None => None,
    }
}
