// The flags of a page-table entry: RISC-V Privileged manual, "Sv39: Page-Based 39-bit Virtual-Memory System".

ghost use Rattle.std.specs.Prelude.{⊤, [], ◌∷◌, codes};

use bitflags::{Flag, Flags, bitflag_items};

/// The flags in the lowest bits of a page-table entry. The bits above them, as an entry has them, may be set too.
#[derive(Clone, Copy, Drop)]
pub struct PteBits(pub u64);

bitflag_items! {
    impl PteBits: u64 {
        const VALID = 1;
        const READ = 2;
        const WRITE = 4;
        const EXECUTE = 8;
        const USER = 16;
        const GLOBAL = 32;
        const ACCESSED = 64;
        const DIRTY = 128;
    }
}

impl Flags for PteBits {
    type Bits = u64;

    ghost exact = { ⊤ };

    ghost table = { (codes "VALID", 1) ∷ (codes "READ", 2) ∷ (codes "WRITE", 4) ∷ (codes "EXECUTE", 8) ∷ (codes "USER", 16) ∷ (
      codes "GLOBAL",
      32,
    ) ∷ (codes "ACCESSED", 64) ∷ (codes "DIRTY", 128) ∷ [] };

    ghost set_of = { λ p. p.0 };

    fn flags<'a>() -> &'a [Flag<PteBits>] {
        PteBits::FLAGS
    }

    fn bits(&self) -> u64 {
        self.0
    }

    fn from_bits_retain(bits: u64) -> PteBits {
        PteBits(bits)
    }
}
