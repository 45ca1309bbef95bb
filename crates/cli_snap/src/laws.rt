// Laws of the command. A law takes no argument and does nothing; its clause is the theorem.
ghost use Rattle.spec_reference.specs.Start.{boot_start, virtio_start};
ghost use Rattle.cli_snap.specs.BlockRuns.{BlockLaw};
ghost use Rattle.cli_snap.specs.CountRuns.{CountsLaw};
ghost use Rattle.cli_snap.specs.SnapEnds.{SnapEndsLaw};
ghost use Rattle.cli_snap.specs.SnapFile.{SnapFileLaw};

/// Where the files tell what they hold and no read of them fails, and `run` accepts the same words with a last one of its own and
/// what the files hold, `snap` refuses nothing: it ends with status 0, and then the snapshot of that run stands under OUT and the
/// console's bytes are written; or a write or the save failed, which is counted; or memory ran out.
pub fn law_snap_ends()
    ensures { SnapEndsLaw }
{}

/// In every run the disk keeps its length, the block device's registers keep their ranges, and a transfer or a request under way
/// lies on the disk.
pub fn law_block()
    ensures { BlockLaw }
{}

/// No count rises by more than the events that are made while the machine runs.
pub fn law_counts()
    ensures { CountsLaw }
{}

/// The bytes that are saved of a run from a measured boot are read again as they were, whichever device its disk is behind.
pub fn law_snap_file()
    ensures block { SnapFileLaw boot_start }
    ensures virtio { SnapFileLaw virtio_start }
{}
