//! Instructions to words, by the instruction table.
#![tactic(auto)]

mod codes;
mod range;
pub mod text;
mod words;

ghost use Rattle.std.specs.Prelude.{◌≡◌, Some, IsTrue};
ghost use Rattle.spec_processor.specs.Encoding as table;
ghost use Rattle.spec_processor.specs.Instructions.{instruction_of};

pub use range::fits;
pub use rv64_decode::Instr;

/// The word of an instruction whose fields are in range. Bits that it doesn't keep are 0.
pub fn encode(instr: &Instr) -> u32
    requires { IsTrue (table.fits instr.now) }
    ensures word { result ≡ table.word_of instr.now }
    ensures decodes { instruction_of result ≡ Some instr.now }
{
    words::word(instr)
}
