// Parts of a whole machine as plain data.

/// A loaded module, by the arguments of its load.
#[derive(Clone, Copy, Drop)]
pub struct ModulePlacement {
    /// The module's place in the policy.
    pub id: u64,
    /// Where its text lies in RAM.
    pub gpa: u64,
    /// The virtual address of its text.
    pub va: u64,
    /// The virtual address of its data.
    pub data_va: u64,
}
