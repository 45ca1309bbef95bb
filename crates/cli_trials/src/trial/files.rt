// What runs begin from, and why there is no outcome.

/// What runs begin from: the text of a policy, the file of a kernel's image, and the bytes of a disk.
#[derive(Clone, Copy, Drop)]
pub struct RunFiles<'a> {
    pub policy: &'a [u8],
    pub image: &'a [u8],
    pub disk: &'a [u8],
}

/// Why there is no outcome.
#[derive(Clone, Copy, Debug, PartialEq, Eq, Drop)]
pub enum NoOutcome {
    /// A line of the script is of no form.
    Script,
    /// The policy or the image is refused, or the boot.
    Refused,
    /// Memory ran out.
    Memory,
}
