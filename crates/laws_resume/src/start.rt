// The machine that goes on from a snapshot: before its first event it stands for the state that the snapshot says. And what a
// snapshot keeps of a machine from its boot on, the digests of its text, by which the run goes on as the whole one.

ghost use Rattle.spec_reference.specs.Start.{boot_start, virtio_start};
ghost use Rattle.laws_resume.specs.Resuming.{ResumedStartLaw};
ghost use Rattle.laws_resume.specs.SnapLaws.{BootDigestsLaw, SnapAcceptedLaw, SnapContinuesLaw, SnapReadLaw};

mod text;

pub use text::text_pages;

/// A machine that is made of a snapshot that isn't refused stands for the state in which the reference machine goes on.
pub fn law_resumed_start()
    ensures { ResumedStartLaw }
{}

/// The pages of the text with their digests, as they are before the first event, are those that a run keeps. This law and the
/// next three stand for each device that the disk may be behind.
pub fn law_boot_digests()
    ensures block { BootDigestsLaw boot_start }
    ensures virtio { BootDigestsLaw virtio_start }
{}

/// A snapshot that was taken after any events of such a run isn't refused under its policy.
pub fn law_snap_accepted()
    ensures block { SnapAcceptedLaw boot_start }
    ensures virtio { SnapAcceptedLaw virtio_start }
{}

/// What is written of it is read again as it was.
pub fn law_snap_read()
    ensures block { SnapReadLaw boot_start }
    ensures virtio { SnapReadLaw virtio_start }
{}

/// A run that goes on from a snapshot, which was taken after any of its events, prints what is left of the whole run.
pub fn law_snap_continues()
    ensures block { SnapContinuesLaw boot_start }
    ensures virtio { SnapContinuesLaw virtio_start }
{}
