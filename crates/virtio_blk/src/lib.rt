//! A virtio block device over MMIO: a disk in memory that moves at most 64 bytes in each beat of a request.
#![tactic(auto)]

mod accept;
mod beats;
mod bus;
mod chain;
mod moves;
mod port;
mod registers;
mod requests;

use std::marker::Model;
use sv_types::VirtioState;

/// A virtio block device with its disk. Contracts see the device that it stands for.
#[derive(Drop)]
pub struct Virtio {
    state: VirtioState,
    bytes: Vec<u8>,
}

impl Model for Virtio {
    ghost use Rattle.virtio_blk.specs.Held.{Held};

    ghost Value = { Held };

    ghost use Rattle.virtio_blk.specs.Held.{IsSound};

    ghost view = { λ v. record { state = v.state; bytes = v.bytes.items } };

    ghost invariant = { λ v. IsSound (record { state = v.state; bytes = v.bytes.items }) };
}
