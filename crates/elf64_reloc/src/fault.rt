// What is wrong with an object.

ghost use Rattle.std.specs.Prelude.{◌≡◌};
ghost use Rattle.elf64_reloc.specs.ObjectFaults.{object_fault_number};

use sv_types::HeaderFault;

/// What is wrong with a module's object.
#[derive(Clone, Copy, Debug, Drop)]
pub enum ObjectFault {
    /// The file's header has a fault.
    Header(HeaderFault),
    /// The section headers are outside the file, or of a wrong size.
    SectionHeaders,
    /// A section's bytes are outside the file.
    OutsideFile,
    /// There is no good table of symbols with their names.
    NoSymbols,
    /// A section's alignment is no power of two up to 4,096, or a field doesn't begin at a multiple of its bytes.
    Alignment,
    /// A relocation is of a kind that no module may have.
    Kind { number: u32 },
    /// A relocation's symbol stands for nothing that it may use.
    Symbol,
    /// A field isn't inside its section.
    OutsideSection,
    /// The low part of an address has no high part.
    NoHighPart,
    /// There are too many fields, or the text is too long.
    TooLarge,
    /// Two fields overlap.
    Overlap,
    /// There is no text.
    NoText,
    /// A name that is wanted is empty, too long, no UTF-8 text or without an end.
    Name,
}

impl ObjectFault {
    /// The fault's number in the line that refuses a module.
    pub fn number(self) -> u8
        ensures { result ≡ object_fault_number self }
    {
        match self {
            ObjectFault::Header(fault) => fault.number(),
            ObjectFault::SectionHeaders => 8,
            ObjectFault::OutsideFile => 9,
            ObjectFault::NoSymbols => 10,
            ObjectFault::Alignment => 11,
            ObjectFault::Kind { number: _ } => 12,
            ObjectFault::Symbol => 13,
            ObjectFault::OutsideSection => 14,
            ObjectFault::NoHighPart => 15,
            ObjectFault::TooLarge => 16,
            ObjectFault::Overlap => 17,
            ObjectFault::NoText => 18,
            ObjectFault::Name => 19,
        }
    }
}
