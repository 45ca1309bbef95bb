// The text of an instruction, as the standard's assembly writes it without pseudoinstructions.

mod mnemonics;
mod texts;

pub use texts::instruction_text;
