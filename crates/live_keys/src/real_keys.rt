// Keys of a reader, as standard input. They tell nothing of content.
ghost use Rattle.std.specs.Prelude.{◌≡◌, ◌<◌, ◌-◌, false, true, Ok, None};
ghost use Rattle.spec_processor.specs.Counters.{CanCount};
ghost use Rattle.live_keys.specs.Keys.{NextGives};
ghost use Rattle.live_keys.specs.Reader.{TakesFrom};
ghost use Rattle.live_keys.specs.Memory.{untold_keys};

use crate::keys::Keys;
use std::io;
use std::io::{ErrorKind, Read};
use sv_types::Failed;

/// How often a read that was interrupted is tried.
const MAX_TRIES: u32 = 1000;

/// The bytes of a reader. After its end nothing more is read: a terminal would go on.
#[derive(Drop)]
pub struct ReaderKeys<I: Read + Drop> {
    reader: I,
    has_ended: bool,
    faults: u64,
}

impl<I: Read + Drop> ReaderKeys<I> {
    pub fn new(reader: I) -> ReaderKeys<I>
        ensures { result.faults ≡ 0 }
    {
        ReaderKeys {
            reader,
            has_ended: false,
            faults: 0,
        }
    }
}

impl<I: Read + Drop> Keys for ReaderKeys<I> {
    ghost state = { λ k. untold_keys k.faults };

    fn next(&mut self) -> Result<Option<u8>, Failed>
        requires count { CanCount self.old.faults }
        ensures gives { NextGives (untold_keys self.old.faults) (untold_keys self.new.faults) result }
        // What is taken are the reader's bytes, one after another.
        ensures takes { TakesFrom self.old.has_ended (I.remaining self.old.reader) (I.remaining self.new.reader) result }
        ensures ended { result ≡ Ok None → self.new.has_ended ≡ true }
    {
        if self.has_ended {
            return Ok(None);
        }
        match next_byte(&mut self.reader) {
            Ok(Some(byte)) => Ok(Some(byte)),
            Ok(None) => {
                self.has_ended = true;
                Ok(None)
            }
            Err(_) => {
                self.faults += 1;
                Err(Failed)
            }
        }
    }
}

// None at the end.
fn read_byte<I: Read>(reader: &mut I) -> io::Result<Option<u8>>
    ensures { TakesFrom false (I.remaining reader.old) (I.remaining reader.new) result }
{
    let mut byte = [0u8; 1];
    let count = reader.read(&mut byte)?;
    if count == 0 {
        return Ok(None);
    }
    Ok(Some(byte[0]))
}

// The same, tried again where it was interrupted.
#[tactic(auto, using(crate::proofs::Readers::takes_on))]
fn next_byte<I: Read>(reader: &mut I) -> io::Result<Option<u8>>
    ensures { TakesFrom false (I.remaining reader.old) (I.remaining reader.new) result }
{
    'tries: for _ in 0..MAX_TRIES {
        match read_byte(reader) {
            Ok(byte) => return Ok(byte),
            Err(error) => {
                if error.kind() != ErrorKind::Interrupted {
                    return Err(error);
                }
            }
        }
    }
    Err(io::Error::from(ErrorKind::Interrupted))
}
