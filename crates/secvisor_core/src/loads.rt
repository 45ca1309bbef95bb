// The turns of a load.

ghost use Rattle.std.specs.Prelude.{◌≡◌, ◌<◌, length};
ghost use Rattle.spec_hardware.specs.HardwareEvent.{is_loading};
ghost use Rattle.spec_hardware.specs.HwExits.{served_load_turn};
ghost use Rattle.spec_hardware.specs.Steps.{WithTables};
ghost use Rattle.monitor_exits.specs.HwOfSlots.{hw_harts_of};
ghost use Rattle.module_gate.specs.Parts.{loading_of};
ghost use Rattle.secvisor_core.specs.Serving.{MayServe};
ghost use Rattle.secvisor_core.specs.Visors.{IsJoined, machine_of};

use crate::visor::Visor;
use hw_platform::Hardware;
use machine_journal::Journal;
use module_gate::load_turn;
use monitor_exits::calls::law_starts;

impl Visor {
    /// A load of a hart is under way.
    #[tactic(auto, unfolding(spec_hardware::specs::HardwareEvent::is_loading))]
    pub fn is_loading(&self, hart: u8) -> bool
        ensures { result ≡ is_loading (loading_of self.now.modules) hart }
    {
        match &self.modules.loading {
            Some(pending) => pending.hart == hart,
            None => false,
        }
    }

    /// A load under way goes on: a page is counted, or its answer is given.
    pub fn load_turn(&mut self, hardware: &mut Hardware, journal: &mut Journal, hart: u8)
        requires joined { IsJoined self.old hardware.old }
        requires there { hart < length (hw_harts_of hardware.old.slots.items) }
        requires may { MayServe (machine_of self.old hardware.old journal.old) }
        ensures joined { IsJoined self.new hardware.new }
        ensures turn { WithTables (machine_of self.old hardware.old journal.old) (served_load_turn (machine_of self.old hardware.old journal.old)
            hart) (machine_of self.new hardware.new journal.new) }
    {
        law_starts();
        if let Some(answer) = load_turn(&hardware.mem, &self.policy, &mut self.modules) {
            self.give(hardware, journal, hart, &answer);
        }
    }
}
