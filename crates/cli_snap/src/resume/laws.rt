// Laws of the commands. A law takes no argument and does nothing; its clause is the theorem.
ghost use Rattle.cli_snap.specs.ResumeEnds.{ResumeEndsLaw};
ghost use Rattle.spec_reference.specs.Start.{boot_start, virtio_start};
ghost use Rattle.cli_snap.specs.SnapAndResume.{SnapAndResumeLaw};

/// Under a policy whose measure the kernel has, `snap` with some events and `resume` of what it saved, with no fewer, print and
/// leave together what `run` does.
pub fn law_snap_and_resume()
    ensures block { SnapAndResumeLaw boot_start }
    ensures virtio { SnapAndResumeLaw virtio_start }
{}

/// Where the files tell what they hold and no read of them fails, and their names hold a snapshot, a policy and a script in range,
/// of which the policy doesn't refuse the snapshot, `resume` refuses nothing: it ends with the status of the verdict of the run
/// that goes on, 0, 1 or 7; or a write or the save failed, which is counted; or memory ran out.
pub fn law_resume_ends()
    ensures { ResumeEndsLaw }
{}
