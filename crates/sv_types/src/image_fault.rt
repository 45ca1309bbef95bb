// Why the file of a kernel is refused.

ghost use Rattle.std.specs.Prelude.{◌≡◌};
ghost use Rattle.sv_types.specs.ImageFaults.{header_fault_number, image_fault_number};

/// What is wrong with the header of an ELF-64 file, of a kernel or of a module.
#[derive(Clone, Copy, Debug, Drop)]
pub enum HeaderFault {
    /// The file is shorter than a header.
    TooShort,
    /// It doesn't begin with the bytes 0x7F, E, L and F.
    Magic,
    /// It isn't one of 64 bits, little-endian.
    Class,
    /// Its version isn't 1.
    Version,
    /// It isn't for RISC-V.
    Machine,
    /// It is of another kind: a kernel's is executable, a module's relocatable.
    Kind,
    /// Its flags ask for compressed instructions, floats or fewer registers.
    Flags,
}

/// What is wrong with the file of a kernel, or with the exports that are wanted of it.
#[derive(Clone, Copy, Debug, Drop)]
pub enum ImageFault {
    /// The file's header has a fault.
    Header(HeaderFault),
    /// The program headers are outside the file, or of a wrong size.
    ProgramHeaders,
    /// A segment's bytes are outside the file.
    OutsideFile,
    /// A segment's memory is outside RAM.
    OutsideRam,
    /// A segment has more bytes in the file than in memory.
    ShortMemory,
    /// A segment is executable and writable.
    WritableText,
    /// A segment of text begins inside a page.
    TextInsidePage,
    /// A page of text is touched by two segments.
    SharedText,
    /// No segment is text.
    NoText,
    /// There are no good tables of sections, symbols and their names.
    NoSymbols,
    /// A name that is wanted is defined by no global symbol.
    UndefinedName,
    /// Too many names are wanted.
    TooManyNames,
}

impl HeaderFault {
    /// The fault's number in the line that refuses a file.
    pub fn number(self) -> u8
        ensures { result ≡ header_fault_number self }
    {
        match self {
            HeaderFault::TooShort => 1,
            HeaderFault::Magic => 2,
            HeaderFault::Class => 3,
            HeaderFault::Version => 4,
            HeaderFault::Machine => 5,
            HeaderFault::Kind => 6,
            HeaderFault::Flags => 7,
        }
    }
}

impl ImageFault {
    /// The fault's number in the line that refuses an image.
    pub fn number(self) -> u8
        ensures { result ≡ image_fault_number self }
    {
        match self {
            ImageFault::Header(fault) => fault.number(),
            ImageFault::ProgramHeaders => 8,
            ImageFault::OutsideFile => 9,
            ImageFault::OutsideRam => 10,
            ImageFault::ShortMemory => 11,
            ImageFault::WritableText => 12,
            ImageFault::TextInsidePage => 13,
            ImageFault::SharedText => 14,
            ImageFault::NoText => 15,
            ImageFault::NoSymbols => 16,
            ImageFault::UndefinedName => 17,
            ImageFault::TooManyNames => 18,
        }
    }
}
