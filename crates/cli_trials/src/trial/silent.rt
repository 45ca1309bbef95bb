// A sink that nothing comes out of.
ghost use Rattle.host_io.specs.Held.{real_sink};

use host_io::{Failed, Sink};

/// Takes all bytes, and keeps none. No write fails.
#[derive(Drop)]
pub(crate) struct Silent;

impl Sink for Silent {
    ghost state = { λ _. real_sink 0 };

    fn write(&mut self, piece: &[u8]) -> Result<usize, Failed> {
        Ok(piece.len())
    }
}
