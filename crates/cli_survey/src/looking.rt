// The load that a machine is about to refuse, and what is wrong with its text.
ghost use Rattle.std.specs.Prelude.{◌≡◌, ◌+◌, ◌*◌, ◌&&◌, ◌==◌, Some, OnOk, length, option_map, slice_get};
ghost use Rattle.spec_processor.specs.Bytes.{page_size};
ghost use Rattle.spec_processor.specs.Counters.{CanCount};
ghost use Rattle.sv_types.specs.Policies.{module_rule, rules_of};
ghost use Rattle.sv_types.specs.declared.event.Verdict.TheVariants.{Running};
ghost use Rattle.spec_reference.specs.Loads.{module_bases, module_text};
ghost use Rattle.spec_reference.specs.States.{State};
ghost use Rattle.spec_hardware.specs.StandsFor.{StandsFor};
ghost use Rattle.machine.specs.Standing.{HasState};
ghost use Rattle.report.specs.Views.{loads_view};
ghost use Rattle.cli_survey.specs.Looking.{IsUnderWay, is_due_to, listed};
ghost use Rattle.cli_survey.specs.Refusals as spec;

use machine::Machine;
use page_measure::fields::{WrongField, first_wrong};
use report::findings::{Loads, RefusedLoad, add_load};
use spec_processor::{PAGE_SIZE, RAM_BASE};
use spec_reference::saved_machine::{SavedHart, SavedLoad};
use std::alloc::AllocError;
use sv_types::{Bases, Event, ModulePlacement, ModulePolicy, Policy};

// The policy's rule of a module.
fn rule_of(policy: &Policy, id: u64) -> Option<&ModulePolicy>
    ensures { option_map (λ m. module_rule m.now) result ≡ slice_get (rules_of policy.now).modules id }
{
    policy.modules.get(id as usize)
}

fn bases_of(module: &ModulePlacement) -> Bases
    ensures { result ≡ module_bases module.now }
{
    Bases {
        va: module.va,
        data_va: module.data_va,
    }
}

// The text of a module whose load is under way.
fn text_of<'a>(machine: &'a Machine, load: &SavedLoad, rule: &ModulePolicy) -> &'a [u8]
    requires under { IsUnderWay machine.now load.now }
    requires rule { slice_get machine.now.rules.modules load.now.«module».id ≡ Some (module_rule rule.now) }
    ensures text { (r : State) → StandsFor machine.now r → result.now ≡ module_text r.ram load.now.«module» rule.now.pages }
    ensures size { length result.now ≡ page_size * rule.now.pages }
{
    let first = (load.module.gpa - RAM_BASE) as usize;
    let (_before, rest) = machine.ram().split_at(first);
    let (text, _after) = rest.split_at(PAGE_SIZE * rule.pages as usize);
    text
}

// What is told of a load that the next turn refuses.
fn refused(machine: &Machine, load: &SavedLoad, hart: u8, wrong: Option<WrongField>) -> RefusedLoad
    requires { CanCount machine.now.journal.counts.turns }
    ensures { result ≡ record { id = load.now.«module».id; wrong = wrong; hart = hart; turn = machine.now.journal.counts.turns + 1 } }
{
    RefusedLoad {
        id: load.module.id,
        wrong,
        hart,
        turn: machine.counts().turns + 1,
    }
}

// A load of which all pages are counted is judged, by the definitions of the monitor. None where it is good.
fn refusal(machine: &Machine, load: &SavedLoad, hart: u8) -> Option<RefusedLoad>
    requires under { IsUnderWay machine.now load.now }
    requires due { load.now.left ≡ 0 }
    requires turns { CanCount machine.now.journal.counts.turns }
    ensures { (r : State) → StandsFor machine.now r → listed result ≡ spec.refusal r hart load.now.«module» }
{
    let policy = machine.policy();
    let Some(rule) = rule_of(policy, load.module.id) else {
        return Some(refused(machine, load, hart, None));
    };
    if !machine.is_measured() {
        return Some(refused(machine, load, hart, None));
    }
    let text = text_of(machine, load, rule);
    let bases = bases_of(&load.module);
    match first_wrong(text, &rule.sites, &bases, &policy.exports) {
        Some(wrong) => Some(refused(machine, load, hart, Some(wrong))),
        None => None,
    }
}

// Whether a load is decided in a turn of this hart, which is this one.
fn is_its(saved: &SavedHart, hart: u8, load: &SavedLoad) -> bool
    ensures { result ≡ (saved.now.started && load.now.hart == hart && load.now.left == 0) }
{
    saved.started && load.hart == hart && load.left == 0
}

// Whether the load under way is decided in a turn of this hart.
fn is_due(machine: &Machine, hart: u8, load: &SavedLoad) -> bool
    ensures { (r : State) → StandsFor machine.now r → result ≡ is_due_to hart (slice_get r.harts hart) load.now }
{
    match machine.hart(hart) {
        Some(saved) => is_its(&saved, hart, load),
        None => false,
    }
}

// The load that a turn of this hart refuses, where it refuses one.
fn refusal_in_turn(machine: &Machine, hart: u8) -> Option<RefusedLoad>
    requires has { HasState machine.now }
    requires turns { CanCount machine.now.journal.counts.turns }
    ensures { (r : State) → StandsFor machine.now r → listed result ≡ spec.refusal_in_turn r hart (slice_get r.harts hart) }
{
    let Some(load) = machine.load_under_way() else {
        return None;
    };
    if !is_due(machine, hart, &load) {
        return None;
    }
    refusal(machine, &load, hart)
}

// The load that an event refuses, where it refuses one.
#[tactic(auto, unfolding(crate::specs::Refusals::refusal_in))]
fn refusal_in(machine: &Machine, event: Event) -> Option<RefusedLoad>
    requires has { HasState machine.now }
    requires turns { CanCount machine.now.journal.counts.turns }
    ensures { (r : State) → StandsFor machine.now r → listed result ≡ spec.refusal_in r event }
{
    match event {
        Event::Turn(hart) => refusal_in_turn(machine, hart),
        Event::Beat | Event::Key(_) | Event::Tick(_) | Event::Poke { gpa: _, value: _ } => None,
    }
}

/// Looks at a machine that runs, before an event: a load that the event refuses is kept, with what is wrong with its text.
#[inline(never)]
pub(crate) fn look(machine: &Machine, event: Event, loads: &mut Loads) -> Result<(), AllocError>
    requires has { HasState machine.now }
    requires turns { CanCount machine.now.journal.counts.turns }
    ensures { OnOk result ((r : State) → StandsFor machine.now r → r.journal.verdict ≡ Running →
        loads_view loads.new ≡ spec.with_loads (loads_view loads.old) (spec.refusals r event)) }
{
    match refusal_in(machine, event) {
        Some(load) => add_load(loads, &load),
        None => Ok(()),
    }
}
