// The laws of a machine's start: before its first event it stands for the start of the reference machine.

ghost use Rattle.laws_resume.specs.Starts.{FlatStartLaw, ImageStartLaw, VirtioStartLaw};

/// A machine of plain pages stands for the start that has these pages at the start of RAM, all of them approved.
pub fn law_flat_start()
    ensures { FlatStartLaw }
{}

/// A machine of a kernel's image that isn't refused stands for the start of that image.
pub fn law_image_start()
    ensures { ImageStartLaw }
{}

/// The same with its disk behind a virtio block device.
pub fn law_virtio_start()
    ensures { VirtioStartLaw }
{}
