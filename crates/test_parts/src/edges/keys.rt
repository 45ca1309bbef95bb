// Keys of a reader, as standard input.

use live_keys::{Keys, ReaderKeys};
use std::io;
use std::io::{ErrorKind, Read};

// What a read gives other than a byte.
const END: u16 = 256;

const INTERRUPTED: u16 = 257;

const FAILING: u16 = 258;

// After its end a reader goes on, as a terminal does.
static ENDING: [u16; 4] = [0, 0xFF, END, 0x61];

static TROUBLED: [u16; 3] = [INTERRUPTED, 0x61, FAILING];

// Each read gives the next of these.
#[derive(Drop)]
struct Typed {
    reads: &'static [u16],
}

impl Read for Typed {
    fn read(&mut self, buf: &mut [u8]) -> io::Result<usize> {
        let [first, rest @ ..] = self.reads else {
            return Ok(0);
        };
        self.reads = rest;
        match (*first, buf) {
            (INTERRUPTED, _) => Err(io::Error::from(ErrorKind::Interrupted)),
            (FAILING, _) => Err(io::Error::from(ErrorKind::Other)),
            (byte @ 0..END, [room, ..]) => {
                *room = byte as u8;
                Ok(1)
            }
            _ => Ok(0),
        }
    }
}

#[test]
fn keys_are_the_bytes_of_the_reader(rt: HostRuntime) {
    let mut keys = ReaderKeys::new(Typed { reads: &ENDING });
    assert!(rt; keys.next() == Ok(Some(0)));
    assert!(rt; keys.next() == Ok(Some(0xFF)));
    assert!(rt; keys.next() == Ok(None));
    assert!(rt; keys.next() == Ok(None));
}

#[test]
fn a_read_that_is_interrupted_is_tried_again_and_one_that_fails_is_told(rt: HostRuntime) {
    let mut keys = ReaderKeys::new(Typed { reads: &TROUBLED });
    assert!(rt; keys.next() == Ok(Some(0x61)));
    assert!(rt; keys.next().is_err());
}
