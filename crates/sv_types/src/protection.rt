// How pages are guarded.

ghost use Rattle.std.specs.Prelude.{◌≡◌};
ghost use Rattle.sv_types.specs.Protections.{is_free, is_approved, is_same, protection_name};

/// How a page of RAM is guarded.
#[derive(Clone, Copy, Drop)]
pub enum Protection {
    Free,
    Held,
    Approved,
}

impl Protection {
    /// Whether a device may write a page of this protection.
    pub fn is_free(self) -> bool
        ensures { result ≡ is_free self }
    {
        matches!(self, Protection::Free)
    }

    /// Whether kernel mode may fetch from a page of this protection.
    pub fn is_approved(self) -> bool
        ensures { result ≡ is_approved self }
    {
        matches!(self, Protection::Approved)
    }

    /// Whether two pages are guarded alike.
    pub fn is_same(self, other: Protection) -> bool
        ensures { result ≡ is_same self other }
    {
        match (self, other) {
            (Protection::Free, Protection::Free)
            | (Protection::Held, Protection::Held)
            | (Protection::Approved, Protection::Approved) => true,
            _ => false,
        }
    }

    /// Its name, as it is printed.
    #[tactic(auto, unfolding(crate::specs::Protections::protection_name))]
    pub fn name(self) -> &'static str
        ensures { result.now ≡ protection_name self }
    {
        match self {
            Protection::Free => "free",
            Protection::Held => "held",
            Protection::Approved => "approved",
        }
    }
}
