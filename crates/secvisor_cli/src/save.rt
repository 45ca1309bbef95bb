// The disk as a run left it, saved, and the name for it, tried.
ghost use Rattle.std.specs.Prelude.{◌<◌, ◌-◌};
ghost use Rattle.std.specs.Option.{option_copied};
ghost use Rattle.spec_reference.specs.Disk.{disk_bytes};
ghost use Rattle.cli_plans.specs.Plans.{saving_of_bytes};
ghost use Rattle.cli_plans.specs.Reading.{MaySave};
ghost use Rattle.secvisor_cli.specs.Answers.{AfterSave, AfterTry, MayTryWhere};
ghost use Rattle.spec_processor.specs.Counters.{CanCount};

use host_io::{Files, Trouble};
use machine::Machine;

/// Tries the name of a later save, where one is given.
pub fn try_place<F: Files>(save: Option<&str>, files: &mut F) -> Result<(), Trouble>
    requires permitted { MayTryWhere (option_copied save) (F.state files.old) }
    requires count { CanCount (F.state files.old).save_faults }
    ensures { AfterTry (option_copied save.entry) (F.state files.old) (F.state files.new) result }
{
    match save {
        None => Ok(()),
        Some(name) => Ok(files.try_save(name)?),
    }
}

/// Saves the disk's bytes, where a name for them is given.
#[tactic(auto, using(crate::proofs::SaveLemmas::saved_exactly, crate::proofs::SaveLemmas::broke_exactly))]
pub fn save_disk<F: Files>(
    machine: &Machine,
    save: Option<&str>,
    files: &mut F,
) -> Result<(), Trouble>
    requires permitted { MaySave (saving_of_bytes (disk_bytes machine.now.devices.disk) (option_copied save)) (F.state files.old) }
    requires count { CanCount (F.state files.old).save_faults }
    ensures { AfterSave (saving_of_bytes (disk_bytes machine.now.devices.disk) (option_copied save.entry)) (F.state files.old) (F.state files.new) result }
{
    match save {
        None => Ok(()),
        Some(name) => Ok(files.save(name, machine.disk())?),
    }
}
