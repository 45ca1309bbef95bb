// Faults in words.

use elf64_reloc::ObjectFault;
use policy_limits::PolicyFault;
use policy_making::ConvertFault;
use sv_types::{HeaderFault, ImageFault};

pub(crate) fn policy_fault(fault: PolicyFault) -> &'static str {
    match fault {
        PolicyFault::NotToml => "no TOML text",
        PolicyFault::MissingKey => "the key is missing, or one in it",
        PolicyFault::UnknownKey => "no policy has the key",
        PolicyFault::WrongKind => "a value of another kind is wanted, or a list of another length",
        PolicyFault::BadHexadecimal => "hexadecimal digits are wrong, too few or too many",
        PolicyFault::BeyondLimit => "a number, a length or an address is beyond its limit",
        PolicyFault::RepeatedName => "the name was met before",
        PolicyFault::OtherFormat => "the format is neither 1 nor 2",
        PolicyFault::NotAscending => "sites don't ascend, or they overlap",
        PolicyFault::RepeatedEntry => "the entry was met before",
    }
}

// Of a kernel's file or of an object's.
fn header_fault(fault: HeaderFault) -> &'static str {
    match fault {
        HeaderFault::TooShort => "shorter than an ELF-64 header",
        HeaderFault::Magic => "no ELF file",
        HeaderFault::Class => "no ELF file of 64 bits, little-endian",
        HeaderFault::Version => "an ELF version that isn't 1",
        HeaderFault::Machine => "not for RISC-V",
        HeaderFault::Kind => "another type of file: a kernel is executable, a module relocatable",
        HeaderFault::Flags => "compiled for compressed instructions, floating point or RV64E",
    }
}

pub(crate) fn image_fault(fault: ImageFault) -> &'static str {
    match fault {
        ImageFault::Header(fault) => header_fault(fault),
        ImageFault::ProgramHeaders => "program headers outside the file, or not of 56 bytes",
        ImageFault::OutsideFile => "a segment's bytes are outside the file",
        ImageFault::OutsideRam =>
            "a segment's memory is outside RAM, whose pages the policy counts",
        ImageFault::ShortMemory => "a segment has more bytes in the file than in memory",
        ImageFault::WritableText => "a segment is executable and writable",
        ImageFault::TextInsidePage => "an executable segment doesn't begin at a page's start",
        ImageFault::SharedText => "a page of an executable segment is touched by another one",
        ImageFault::NoText => "no segment is executable",
        ImageFault::NoSymbols => "no good symbol table, in which the modules' names are looked up",
        ImageFault::UndefinedName => "no global symbol defines a name that a module wants",
        ImageFault::TooManyNames => "the modules want too many names",
    }
}

pub(crate) fn object_fault(fault: ObjectFault) -> &'static str {
    match fault {
        ObjectFault::Header(fault) => header_fault(fault),
        ObjectFault::SectionHeaders => "section headers outside the file, or not of 64 bytes",
        ObjectFault::OutsideFile => "a section's bytes are outside the file",
        ObjectFault::NoSymbols => "no good symbol table",
        ObjectFault::Alignment => "an alignment that is no power of two up to 4096, or isn't kept",
        ObjectFault::Kind { number: _ } => "no module may have a relocation of this kind",
        ObjectFault::Symbol => "the symbol stands for nothing that a relocation may use",
        ObjectFault::OutsideSection => "the field is outside its section",
        ObjectFault::NoHighPart =>
            "a low part with an addend, or without its high part in the text",
        ObjectFault::TooLarge => "more than 65536 fields, or a text of more than 1024 pages",
        ObjectFault::Overlap => "two fields overlap",
        ObjectFault::NoText => "no section is executable",
        ObjectFault::Name => "a name that is wanted is empty, too long or no UTF-8 text",
    }
}

pub(crate) fn convert_fault(fault: ConvertFault) -> &'static str {
    match fault {
        ConvertFault::OtherFormat => "the format isn't 1",
        ConvertFault::NoPlace => "an entry lies in no executable segment of the kernel",
        ConvertFault::OtherByte =>
            "an entry and its place in the kernel differ in their low 12 bits",
    }
}
