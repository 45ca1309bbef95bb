// The words that were met, in their flat form, and the count of the turns that were made by them.

ghost use Rattle.std.specs.Prelude.{◌≡◌, ◌+◌, ◌<◌, ◌^◌, IfOk, IfSome, length};
ghost use Rattle.hart.specs.Cores.{word_places};
ghost use Rattle.hw_fast_path.specs.Ends.{turns_of};

use crate::batch::Batch;
use crate::flatten::flatten;
use crate::leaving::Leaving;
use crate::micro_op::MicroOp;
use hart::WORD_PLACES;
use spec_processor::INSTRUCTION_BYTES;
use std::alloc::{AllocError, Global};
use std::marker::Model;

/// Words in their flat form, and the count of the turns that were made by them, each of which is an attempt. Contracts see
/// the count.
#[derive(Drop)]
pub struct MicroOpCache {
    pub(crate) micro_op: FlatWords,
    turns: u64,
}

impl Model for MicroOpCache {
    ghost use Rattle.std.specs.Prelude.{ℕ};

    ghost Value = { ℕ };

    ghost view = { λ w. w.turns };
}

impl MicroOpCache {
    /// No word was met, and no turn was made. Out of memory is the one refusal.
    pub fn new(alloc: Global) -> Result<MicroOpCache, AllocError>
        ensures { IfOk result (λ turns. turns ≡ 0) }
    {
        let micro_op = FlatWords::new(alloc)?;
        Ok(MicroOpCache { micro_op, turns: 0 })
    }

    /// The turns that were made.
    pub fn turns(&self) -> u64
        ensures { result ≡ self.now }
    {
        self.turns
    }

    /// Counts the turns of a row.
    #[inline(always)]
    pub(crate) fn count(&mut self, batch: Batch)
        requires { self.old + turns_of batch < 2 ^ 64 }
        ensures { self.new ≡ self.old + turns_of batch }
    {
        self.turns += match batch.left {
            Leaving::Stays => batch.made,
            Leaving::Calls | Leaving::Returns => batch.made + 1,
        };
    }
}

/// Words in their flat form, each kept where its place leads until another one comes there. Contracts see nothing of it.
#[derive(Drop)]
pub(crate) struct FlatWords {
    places: Vec<MicroOp>,
    ghost size: { length places.items ≡ word_places },
}

impl FlatWords {
    // No word was met.
    fn new(alloc: Global) -> Result<FlatWords, AllocError> {
        let places = zero_words(alloc, WORD_PLACES)?;
        Ok(FlatWords { places })
    }

    /// A word in its flat form, by where it was fetched.
    #[inline(always)]
    pub(crate) fn micro_op(&mut self, pc: u64, word: u32) -> &MicroOp
        ensures { result.now.word ≡ word }
    {
        let place = (pc / INSTRUCTION_BYTES) as usize % WORD_PLACES;
        if self.places[place].word != word {
            keep(&mut self.places[place], word);
        }
        &self.places[place]
    }

    /// A word in its flat form, where it stands in its place.
    #[inline(always)]
    pub(crate) fn held(&self, pc: u64, word: u32) -> Option<&MicroOp>
        ensures { IfSome result (λ micro_op. micro_op.now.word ≡ word) }
    {
        let micro_op = &self.places[(pc / INSTRUCTION_BYTES) as usize % WORD_PLACES];
        if micro_op.word == word {
            Some(micro_op)
        } else {
            None
        }
    }
}

// A word takes a place, kept out of the way of words that stand there.
#[inline(never)]
fn keep(place: &mut MicroOp, word: u32)
    ensures { place.new.word ≡ word }
{
    *place = flatten(word);
}

// So many places that hold the word 0.
fn zero_words(alloc: Global, count: usize) -> Result<Vec<MicroOp>, AllocError>
    ensures { IfOk result (λ words. length words.items ≡ count) }
{
    vec![in alloc; flatten(0); count]
}
