// What a session keeps between packets.
ghost use Rattle.std.specs.Prelude.{◌≡◌, [], true, false, OnOk, IfOk, unwrap_or, max};
ghost use Rattle.debug_session.specs.Sessions as spec;
ghost use Rattle.debug_session.specs.Watches.{with_watch, without_watch};

use crate::breaks::{clear_break, set_break};
use crate::watches::{Watch, clear_watch, set_watch};
use std::alloc::{AllocError, Global};
use std::marker::Model;

/// What a session keeps between packets, but for the run.
#[derive(Drop)]
pub struct Desk {
    /// The hart whose registers and memory are asked for.
    pub looks: u8,
    /// The hart that goes on.
    pub moves: u8,
    pub breaks: Vec<u64>,
    pub watches: Vec<Watch>,
    /// How many of the console's bytes were told.
    pub told: usize,
    /// Whether packets are acknowledged.
    pub acks: bool,
    /// The last answer.
    pub last: Vec<u8>,
    pub goes_on: bool,
}

impl Model for Desk {
    ghost use Rattle.debug_session.specs.Sessions.{Desk as Kept};

    ghost Value = { Kept };

    ghost use Rattle.debug_session.specs.Desks.{desk_of};

    ghost view = { desk_of };
}

impl Desk {
    /// Nothing is set, and packets are acknowledged.
    pub fn new(alloc: Global) -> Desk
        ensures { result ≡ spec.first_desk }
    {
        Desk {
            looks: 0,
            moves: 0,
            breaks: Vec::new(alloc),
            watches: Vec::new(alloc),
            told: 0,
            acks: true,
            last: Vec::new(alloc),
            goes_on: true,
        }
    }

    pub(crate) fn look_at(&mut self, hart: u8)
        ensures { self.new ≡ record self.old { looks = hart } }
    {
        self.looks = hart;
    }

    pub(crate) fn move_by(&mut self, hart: u8)
        ensures { self.new ≡ record self.old { moves = hart } }
    {
        self.moves = hart;
    }

    pub(crate) fn set_break(&mut self, place: u64) -> Result<(), AllocError>
        ensures { OnOk result (self.new ≡ record self.old { breaks = spec.with_break self.old.breaks place }) }
    {
        set_break(&mut self.breaks, place)
    }

    pub(crate) fn clear_break(&mut self, place: u64)
        ensures { self.new ≡ record self.old { breaks = spec.without_break self.old.breaks place } }
    {
        clear_break(&mut self.breaks, place);
    }

    // None where there is no word to watch.
    pub(crate) fn set_watch(&mut self, watch: Option<Watch>) -> Result<(), AllocError>
        ensures { OnOk result (self.new ≡ record self.old { watches = with_watch self.old.watches watch }) }
    {
        match watch {
            Some(watch) => set_watch(&mut self.watches, watch),
            None => Ok(()),
        }
    }

    pub(crate) fn clear_watch(&mut self, address: u64)
        ensures { self.new ≡ record self.old { watches = without_watch self.old.watches address } }
    {
        clear_watch(&mut self.watches, address);
    }

    pub(crate) fn stop_acks(&mut self)
        ensures { self.new ≡ record self.old { acks = false } }
    {
        self.acks = false;
    }

    pub(crate) fn end(&mut self)
        ensures { self.new ≡ record self.old { goes_on = false } }
    {
        self.goes_on = false;
    }

    /// A run stands at a hart, and so many bytes of its console were told.
    pub(crate) fn stand_at(&mut self, hart: u8, printed: usize)
        ensures { self.new ≡ record self.old { looks = hart; moves = hart; told = max self.old.told printed } }
    {
        self.looks = hart;
        self.moves = hart;
        self.told = self.told.max(printed);
    }

    /// Keeps the last answer.
    pub(crate) fn remember(&mut self, answer: Vec<u8>)
        ensures { self.new ≡ record self.old { last = answer.items } }
    {
        self.last = answer;
    }
}
