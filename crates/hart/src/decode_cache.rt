// The instructions of words that were decoded.

ghost use Rattle.std.specs.Prelude.{◌≡◌, IfOk, IsTrue, length};
ghost use Rattle.std.specs.Option.{ForSome};
ghost use Rattle.spec_processor.specs.Encoding.{fits};
ghost use Rattle.spec_processor.specs.Instructions.{instruction_of};
ghost use Rattle.hart.specs.Cores.{word_places};

use rv64_decode::decode;
use spec_processor::{INSTRUCTION_BYTES, Instr};
use std::alloc::{AllocError, Global};

/// The places for words: one for each place of an instruction modulo 256 KiB.
pub const WORD_PLACES: usize = 65536;

/// A word and its instruction, none where no row of the instruction table has the word.
#[derive(Clone, Copy, Drop)]
pub struct Decoded {
    pub word: u32,
    pub instr: Option<Instr>,
    ghost decodes: { instr ≡ instruction_of word },
    ghost fields: { ForSome instr (λ i. IsTrue (fits i)) },
}

impl Decoded {
    #[inline(never)]
    fn of(word: u32) -> Decoded
        ensures { result.word ≡ word }
    {
        let instr = decode(word);
        Decoded { word, instr }
    }
}

/// Words that were decoded, each kept where its place leads until another one comes there. Contracts see nothing of it.
#[derive(Drop)]
pub struct DecodeCache {
    places: Vec<Decoded>,
    ghost size: { length places.items ≡ word_places },
}

impl DecodeCache {
    /// No word was decoded. Out of memory is the one refusal.
    pub fn new(alloc: Global) -> Result<DecodeCache, AllocError> {
        let places = zero_words(alloc, WORD_PLACES)?;
        Ok(DecodeCache { places })
    }

    /// A word with its instruction, by where the word was fetched.
    #[inline(always)]
    pub fn decoded_word(&mut self, pc: u64, word: u32) -> &Decoded
        ensures { result.now.word ≡ word }
    {
        let place = (pc / INSTRUCTION_BYTES) as usize % WORD_PLACES;
        if self.places[place].word != word {
            self.places[place] = Decoded::of(word);
        }
        &self.places[place]
    }
}

// So many places that hold the word 0.
fn zero_words(alloc: Global, count: usize) -> Result<Vec<Decoded>, AllocError>
    ensures { IfOk result (λ words. length words.items ≡ count) }
{
    vec![in alloc; Decoded::of(0); count]
}
