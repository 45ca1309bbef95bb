// What a call about modules is answered: the first check that fails gives the code.

ghost use Rattle.std.specs.Prelude.{◌≡◌, ℕ, Bool, List, slice_get, is_some};
ghost use Rattle.sv_types.specs.Policies.{rules_of};
ghost use Rattle.spec_reference.specs.Calls.{Facts};
ghost use Rattle.spec_reference.specs.ModuleCalls.{module_asked, load_refused, load_call, load_decision, unload_refused, unload_call};
ghost use Rattle.spec_reference.specs.ModuleCalls.{retire_refused, retire_call, module_call};
ghost use Rattle.spec_reference.specs.States.{find_module};
ghost use Rattle.page_guard.specs.Guarded.{TablesMatchGuard};
ghost use Rattle.module_gate.specs.Parts.{loading_of, facts_in};

use crate::modules::Modules;
use crate::places::is_good_place;
use crate::rules::rule_of;
use host_mem::HostMem;
use monitor_exits::Asked;
use page_guard::Guard;
use spec_reference::{Answer, Reply, SideEffect};
use sv_types::{ModulePlacement, Policy, SbiCode};

/// The functions, by their numbers.
const LOAD: u64 = 0;

const UNLOAD: u64 = 1;

const RETIRE: u64 = 2;

fn load_refused(id: u64, code: SbiCode) -> Answer
    ensures { result ≡ load_refused id code }
{
    Answer {
        reply: Reply::of_code(code),
        side_effect: SideEffect::RefusesLoad { id, code },
    }
}

fn unload_refused(id: u64, code: SbiCode) -> Answer
    ensures { result ≡ unload_refused id code }
{
    Answer {
        reply: Reply::of_code(code),
        side_effect: SideEffect::RefusesUnload { id, code },
    }
}

fn retire_refused(code: SbiCode) -> Answer
    ensures { result ≡ retire_refused code }
{
    Answer {
        reply: Reply::of_code(code),
        side_effect: SideEffect::RefusesRetire { code },
    }
}

// The module that a load's arguments name.
fn module_asked(asked: &Asked) -> ModulePlacement
    ensures { result ≡ module_asked asked.now }
{
    ModulePlacement {
        id: asked.a0,
        gpa: asked.a1,
        va: asked.a2,
        data_va: asked.a3,
    }
}

// A load begins where none is under way, the module isn't loaded, and its place is good.
#[tactic(auto, unfolding(spec_reference::specs::ModuleCalls::load_call, spec_reference::specs::ModuleCalls::good_address, crate::specs::Gates::is_good_place))]
fn load_call(
    policy: &Policy,
    guard: &Guard,
    mem: &HostMem,
    modules: &Modules,
    asked: &Asked,
) -> Answer
    requires { TablesMatchGuard mem.now guard.now }
    ensures { (started : List Bool) (input : List ℕ) → result ≡
        load_call (facts_in started input (rules_of policy.now) mem.now.ram guard.now.pages modules.now) asked.now
        (slice_get (rules_of policy.now).modules asked.now.a0) }
{
    let about = module_asked(asked);
    let Some(rule) = rule_of(policy, about.id) else {
        return load_refused(about.id, SbiCode::InvalidParameter);
    };
    if modules.is_loading() {
        load_refused(about.id, SbiCode::PendingLoad)
    } else if modules.gate.find(about.id).is_some() {
        load_refused(about.id, SbiCode::Already)
    } else if is_good_place(guard, mem, &about, rule.pages) {
        Answer {
            reply: Reply::Stays,
            side_effect: SideEffect::BeginsLoad {
                about,
                pages: rule.pages as u64,
            },
        }
    } else {
        load_refused(about.id, SbiCode::InvalidAddress)
    }
}

// A loaded module is unloaded where no load is under way.
#[tactic(auto, unfolding(spec_reference::specs::ModuleCalls::unload_call))]
fn unload_call(modules: &Modules, id: u64) -> Answer
    ensures { (f : Facts) → result ≡ unload_call (record f { loads = is_some (loading_of modules.now) }) id (find_module modules.now.gate.loaded id) }
{
    match modules.gate.find(id) {
        None => unload_refused(id, SbiCode::InvalidParameter),
        Some(_) if modules.is_loading() => unload_refused(id, SbiCode::PendingLoad),
        Some(about) => Answer {
            reply: Reply::of_code(SbiCode::Success),
            side_effect: SideEffect::UnloadsModule { about },
        },
    }
}

// The policy's init pages are retired once.
#[tactic(auto, unfolding(spec_reference::specs::ModuleCalls::retire_call))]
fn retire_call(policy: &Policy, modules: &Modules) -> Answer
    ensures { (f : Facts) → result ≡ retire_call (record f { retired = modules.now.gate.retired }) (rules_of policy.now).init }
{
    match policy.init {
        None => retire_refused(SbiCode::InvalidParameter),
        Some(_) if modules.gate.retired() => retire_refused(SbiCode::Already),
        Some(span) => Answer {
            reply: Reply::of_code(SbiCode::Success),
            side_effect: SideEffect::RetiresInit { span },
        },
    }
}

/// What a call about modules is answered.
#[tactic(auto, unfolding(spec_reference::specs::ModuleCalls::module_call))]
pub fn module_answer(
    policy: &Policy,
    guard: &Guard,
    mem: &HostMem,
    modules: &Modules,
    asked: &Asked,
) -> Answer
    requires { TablesMatchGuard mem.now guard.now }
    ensures { (started : List Bool) (input : List ℕ) → result ≡
        module_call (facts_in started input (rules_of policy.now) mem.now.ram guard.now.pages modules.now) asked.now }
{
    match asked.function {
        LOAD => load_call(policy, guard, mem, modules, asked),
        UNLOAD => unload_call(modules, asked.a0),
        RETIRE => retire_call(policy, modules),
        _ => Answer::plain(Reply::of_code(SbiCode::NotSupported)),
    }
}

/// What the end of a load is answered: the module is approved where its text is good.
pub(crate) fn load_decision(good: bool, about: ModulePlacement) -> Answer
    ensures { result ≡ load_decision good about }
{
    if good {
        Answer {
            reply: Reply::of_code(SbiCode::Success),
            side_effect: SideEffect::ApprovesModule { about },
        }
    } else {
        Answer {
            reply: Reply::of_code(SbiCode::RefusedByMeasure),
            side_effect: SideEffect::ReleasesModule { about },
        }
    }
}
