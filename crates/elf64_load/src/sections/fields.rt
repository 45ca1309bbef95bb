// Fields of a file, the lowest byte first.

ghost use Rattle.std.specs.Prelude.{◌≡◌, ◌+◌, ◌≤◌, length};
ghost use Rattle.spec_processor.specs.Bytes.{word};

use byteorder::{ByteOrder, LittleEndian};

/// The byte at `at`.
#[tactic(auto, using(crate::proofs::Words::word_of_byte))]
pub fn byte(file: &[u8], at: usize) -> u8
    requires { at + 1 ≤ length file.now }
    ensures { result ≡ word file.now at 1 }
{
    file[at]
}

/// The field of 2 bytes at `at`.
pub fn half(file: &[u8], at: usize) -> u16
    requires { at + 2 ≤ length file.now }
    ensures { result ≡ word file.now at 2 }
{
    LittleEndian::read_u16(&file[at..])
}

/// The field of 4 bytes at `at`.
pub fn word(file: &[u8], at: usize) -> u32
    requires { at + 4 ≤ length file.now }
    ensures { result ≡ word file.now at 4 }
{
    LittleEndian::read_u32(&file[at..])
}

/// The field of 8 bytes at `at`.
pub fn double(file: &[u8], at: usize) -> u64
    requires { at + 8 ≤ length file.now }
    ensures { result ≡ word file.now at 8 }
{
    LittleEndian::read_u64(&file[at..])
}
