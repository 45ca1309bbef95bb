// The file of a kernel: headers, a page of text and a body.

ghost use Rattle.std.specs.Prelude.{◌≡◌, ◌+◌, ◌*◌, ◌<◌, ◌≤◌, ◌^◌, IsTrue, IfOk, length};
ghost use Rattle.std.specs.List.{list_all};
ghost use Rattle.spec_processor.specs.Bytes.{page_size};
ghost use Rattle.spec_processor.specs.Encoding.{fits};
ghost use Rattle.guest_gen.specs.Images as spec;

use crate::fields::{Field, pad, push_code, push_fields};
use elf64_load::sections::elf::{
    ELF_MAGIC, ELFCLASS64, ELFDATA2LSB, EM_RISCV, ET_EXEC, EV_CURRENT, FILE_HEADER_BYTES, PF_R_BIT,
    PF_W_BIT, PF_X_BIT, PROGRAM_HEADER_BYTES, PT_LOAD,
};
use rv64_encode::Instr;
use spec_processor::{PAGE_BYTES, PAGE_SIZE, RAM_BASE};
use std::alloc::{AllocError, Global};
use sv_types::ProgramHeader;

/// Where the text lies and the kernel begins.
pub const TEXT_ADDRESS: u64 = RAM_BASE + PAGE_BYTES;

/// The number of segments.
const SEGMENTS: u16 = 3;

/// The flags of a segment.
const EXECUTABLE: u32 = 1 << PF_X_BIT;

const WRITABLE: u32 = 1 << PF_W_BIT;

const READABLE: u32 = 1 << PF_R_BIT;

#[tactic(auto, unfolding(crate::specs::Images::file_header))]
fn file_header() -> [Field; 19]
    ensures { result ≡ spec.file_header }
{
    [
        Field::Word(ELF_MAGIC),
        Field::Byte(ELFCLASS64),
        Field::Byte(ELFDATA2LSB),
        Field::Byte(EV_CURRENT),
        Field::Byte(0),
        Field::Double(0),
        Field::Half(ET_EXEC),
        Field::Half(EM_RISCV),
        Field::Word(u32::from(EV_CURRENT)),
        Field::Double(TEXT_ADDRESS),
        Field::Double(FILE_HEADER_BYTES as u64),
        Field::Double(0),
        Field::Word(0),
        Field::Half(FILE_HEADER_BYTES as u16),
        Field::Half(PROGRAM_HEADER_BYTES as u16),
        Field::Half(SEGMENTS),
        Field::Half(0),
        Field::Half(0),
        Field::Half(0),
    ]
}

#[tactic(auto, unfolding(crate::specs::Images::program_header))]
fn program_header(header: &ProgramHeader) -> [Field; 8]
    ensures { result ≡ spec.program_header header.now }
{
    [
        Field::Word(header.kind),
        Field::Word(header.flags),
        Field::Double(header.offset),
        Field::Double(header.va),
        Field::Double(header.gpa),
        Field::Double(header.file_size),
        Field::Double(header.memory_size),
        Field::Double(PAGE_BYTES),
    ]
}

#[tactic(auto, unfolding(crate::specs::Images::segment))]
fn segment(flags: u32, offset: u64, file_size: u64, memory_size: u64) -> ProgramHeader
    requires { offset < 2 ^ 32 }
    ensures { result ≡ spec.segment flags offset file_size memory_size }
{
    ProgramHeader {
        kind: PT_LOAD,
        flags,
        offset,
        va: RAM_BASE + offset,
        gpa: RAM_BASE + offset,
        file_size,
        memory_size,
    }
}

// The headers of a file with a body of this size.
#[tactic(auto, unfolding(crate::specs::Images::headers))]
fn headers(alloc: Global, body_size: u64) -> Result<Vec<u8>, AllocError>
    ensures { IfOk result (λ file. file.items ≡ spec.headers body_size) }
{
    let page = PAGE_BYTES;
    let mut file = Vec::new(alloc);
    push_fields(&mut file, &file_header())?;
    push_fields(
        &mut file,
        &program_header(&segment(READABLE, 0, page, page)),
    )?;
    push_fields(
        &mut file,
        &program_header(&segment(READABLE + EXECUTABLE, page, page, page)),
    )?;
    push_fields(
        &mut file,
        &program_header(&segment(READABLE + WRITABLE, 2 * page, body_size, 2 * page)),
    )?;
    Ok(file)
}

/// The file with this text, which is a page at most, and this body. Fails where memory runs out.
#[tactic(auto, unfolding(crate::specs::Images::laid_out))]
pub fn laid_out(alloc: Global, text: &[u8], body: &[u8]) -> Result<Vec<u8>, AllocError>
    requires text { length text.now ≤ page_size }
    requires body { length body.now ≤ 2 * page_size }
    ensures { IfOk result (λ file. file.items ≡ spec.laid_out text.now body.now) }
{
    let mut file = headers(alloc, body.len() as u64)?;
    pad(&mut file, PAGE_SIZE)?;
    file.extend_from_slice(text)?;
    pad(&mut file, 2 * PAGE_SIZE)?;
    file.extend_from_slice(body)?;
    Ok(file)
}

/// The file of a kernel with this text, with which it begins, and this body in two pages after. Fails where it is out
/// of memory.
pub fn image(alloc: Global, text: &[Instr], body: &[u8]) -> Result<Vec<u8>, AllocError>
    requires instructions { IsTrue (list_all fits text.now) }
    requires text { 4 * length text.now ≤ page_size }
    requires body { length body.now ≤ 2 * page_size }
    ensures { IfOk result (λ file. file.items ≡ spec.image text.now body.now) }
{
    let mut code = Vec::new(alloc);
    push_code(&mut code, text)?;
    laid_out(alloc, &code, body)
}
