// The reader of a stream.
ghost use Rattle.std.specs.Prelude.{◌≡◌, ◌≤◌, length, IfOk, IfSome};
ghost use Rattle.gdb_protocol.specs.declared.place.Place.TheVariants.{Inside, Outside};
ghost use Rattle.gdb_protocol.specs.Reading as spec;

use crate::arrival::Arrival;
use crate::digits::pair_value;
use crate::frame::{ESCAPE, ESCAPE_BIT, PACKET_END, PACKET_START};
use crate::place::Place;
use std::alloc::{AllocError, Global};
use std::marker::Model;

/// The most bytes of a packet, once its escapes are read.
pub const MAX_PAYLOAD: usize = 16384;

// The byte that asks for a stop.
const INTERRUPT: u8 = 3;

/// Reads a stream byte by byte. All its room is taken when it is made.
#[derive(Drop)]
pub struct PacketReader {
    place: Place,
    payload: Vec<u8>,
    sum: u8,
    is_long: bool,
}

impl Model for PacketReader {
    ghost use Rattle.gdb_protocol.specs.Reading.{Reading};

    ghost Value = { Reading };

    ghost use Rattle.gdb_protocol.specs.Readers.{reading_of, HasRoom};

    ghost view = { reading_of };

    ghost invariant = { HasRoom };
}

impl PacketReader {
    /// A reader between packets.
    pub fn new(alloc: Global) -> Result<PacketReader, AllocError>
        ensures { IfOk result (λ r. r ≡ spec.at_start Outside) }
    {
        Ok(PacketReader {
            place: Place::Outside,
            payload: Vec::with_capacity(alloc, MAX_PAYLOAD)?,
            sum: 0,
            is_long: false,
        })
    }

    /// The bytes of the packet that was read last, up to the byte that begins the next one.
    pub fn payload(&self) -> &[u8]
        ensures value { result.now ≡ self.now.payload }
        ensures few { length result.now ≤ spec.max_payload }
    {
        &self.payload
    }

    /// Takes the next byte of the stream, and answers what arrives by it.
    #[tactic(auto, unfolding(crate::specs::Reading::next_at, crate::specs::Reading::arrival_at))]
    pub fn take(&mut self, byte: u8) -> Option<Arrival>
        ensures next { self.new ≡ spec.next byte self.old }
        ensures arrival { result ≡ spec.arrival byte self.old }
        // What arrived is still there.
        ensures payload { IfSome result (λ kind. spec.payload_of kind self.new ≡ spec.payload_of kind self.old) }
    {
        match self.place {
            Place::Outside => {
                if byte == PACKET_START {
                    self.begin();
                }
                arrival_between(byte)
            }
            Place::Inside => {
                self.take_inside(byte);
                None
            }
            Place::Escaped => {
                self.sum = self.sum.wrapping_add(byte);
                self.keep(byte ^ ESCAPE_BIT);
                self.place = Place::Inside;
                None
            }
            Place::Ended => {
                self.place = Place::AtLastDigit(byte);
                None
            }
            Place::AtLastDigit(first) => {
                self.place = Place::Outside;
                Some(self.ended(first, byte))
            }
        }
    }

    #[tactic(auto, unfolding(crate::specs::Reading::next_inside))]
    fn take_inside(&mut self, byte: u8)
        ensures { self.new ≡ spec.next_inside byte self.old }
    {
        if byte == PACKET_START {
            self.begin();
            return;
        }
        if byte == PACKET_END {
            self.place = Place::Ended;
            return;
        }
        self.sum = self.sum.wrapping_add(byte);
        if byte == ESCAPE {
            self.place = Place::Escaped;
            return;
        }
        self.keep(byte);
    }

    fn begin(&mut self)
        ensures { self.new ≡ spec.at_start Inside }
    {
        self.place = Place::Inside;
        self.payload.clear();
        self.sum = 0;
        self.is_long = false;
    }

    fn keep(&mut self, byte: u8)
        ensures { self.new ≡ spec.kept byte self.old }
    {
        if self.payload.len() >= MAX_PAYLOAD {
            self.is_long = true;
            return;
        }
        if self.payload.push(byte).is_err() {
            unreachable!();
        }
    }

    fn ended(&self, first: u8, last: u8) -> Arrival
        ensures { result ≡ spec.ended first last self.now }
    {
        if self.is_long {
            Arrival::TooLong
        } else if pair_value(first, last) == Some(self.sum) {
            Arrival::Packet
        } else {
            Arrival::Broken
        }
    }
}

fn arrival_between(byte: u8) -> Option<Arrival>
    ensures { result ≡ spec.between byte }
{
    match byte {
        b'+' => Some(Arrival::Received),
        b'-' => Some(Arrival::Again),
        INTERRUPT => Some(Arrival::Interrupt),
        _ => None,
    }
}
