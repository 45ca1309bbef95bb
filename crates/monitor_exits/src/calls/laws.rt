// What holds of every answer.

ghost use Rattle.std.specs.Prelude.{ℕ, Bool};
ghost use Rattle.sv_types.specs.declared.saved.ModulePlacement.{ModulePlacement};
ghost use Rattle.spec_reference.specs.Calls.{Asked, Facts};
ghost use Rattle.spec_reference.specs.ModuleCalls.{module_call, load_decision};
ghost use Rattle.monitor_exits.specs.Known.{StartsOneOf};

/// Neither a call about modules nor the end of a load starts a hart.
pub fn law_starts()
    ensures calls { (f : Facts) (ask : Asked) (n : ℕ) → StartsOneOf n (module_call f ask).side_effect }
    ensures loads { (good : Bool) (about : ModulePlacement) (n : ℕ) → StartsOneOf n (load_decision good about).side_effect }
{}
