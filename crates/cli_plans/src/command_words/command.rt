// The words of a command by their names.

/// Which block device a machine has.
#[derive(Clone, Copy, Drop)]
pub enum DiskKind {
    /// The one of five registers.
    Block,
    /// A virtio block device.
    Virtio,
}

/// `show SNAPSHOT [KERNEL]`
#[derive(Drop)]
pub struct ShowWords<'a> {
    /// The name of the snapshot.
    pub saved: &'a str,
    /// The name of the kernel whose symbols name addresses, where it is given.
    pub kernel: Option<&'a str>,
}

/// `convert KERNEL IN OUT`
#[derive(Drop)]
pub struct ConvertWords<'a> {
    pub kernel: &'a str,
    /// The name of the policy that is given.
    pub given: &'a str,
    pub out: &'a str,
}
