// The reading of files.
ghost use Rattle.std.specs.Prelude.{◌<◌, ◌-◌, [], ◌∷◌, IsTrue};
ghost use Rattle.secvisor_cli.specs.Ready.{PartRead};
ghost use Rattle.spec_processor.specs.Counters.{CanCount};

use crate::ready::Stop;
use cli_plans::{FileFault, Part, Refusal};
use host_io::{FileRefusal, Files};
use std::alloc::Global;

/// The bytes of a part, which is read once and refused where it can't be read.
pub fn read_part<F: Files>(
    alloc: Global,
    files: &mut F,
    part: Part,
    name: &str,
    limit: usize,
) -> Result<Vec<u8>, Stop>
    requires permitted { IsTrue ((F.state files.old).permits ((name.now, limit) ∷ [])) }
    requires count { CanCount (F.state files.old).read_faults }
    ensures { PartRead part name.now limit (F.state files.old) (F.state files.new) result }
{
    match files.read(alloc, name, limit) {
        Ok(bytes) => Ok(bytes),
        Err(FileRefusal::Absent) | Err(FileRefusal::Failed) => {
            Err(Stop::Refused(Refusal::ReadFault { part }))
        }
        Err(FileRefusal::TooLong) => Err(Stop::Refused(Refusal::File {
            fault: FileFault::Longer { part },
        })),
        Err(FileRefusal::Memory) => Err(Stop::Memory),
    }
}
