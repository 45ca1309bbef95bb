// How a journal grows, and what its events are. A law takes no argument and does nothing; its clauses are the theorem.
ghost use Rattle.std.specs.Prelude.{◌≡◌, ◌<◌, ◌+◌, ◌++◌, ◌∷◌, ℕ, List, [], true, vec_len, IfOk};
ghost use Rattle.spec_processor.specs.Counters.{CanCount};
ghost use Rattle.sv_types.specs.Schedule.{Schedule, auto_event, first_events};
ghost use Rattle.sv_types.specs.declared.event.Event.TheVariants.{Key};
ghost use Rattle.live_keys.specs.declared.live_key.LiveKey.{LiveKey as Placed};
ghost use Rattle.live_keys.specs.Line.{max_keys};
ghost use Rattle.live_keys.specs.Placed.{is_placed, events_between, bytes_of, keys_among, others_among};
ghost use Rattle.live_keys.specs.Journal.{events_of, key_bytes, HasRoom};

use crate::journal::Journal;
use crate::line::PLACES;
use crate::live_key::LiveKey;
use std::alloc::{AllocError, Global};

impl Journal {
    /// A journal with no event, and with room for all keys that can come.
    pub fn new(alloc: Global) -> Result<Journal, AllocError>
        ensures keys { IfOk result (λ j. j.keys.items ≡ []) }
        ensures autos { IfOk result (λ j. j.autos ≡ 0) }
        ensures room { IfOk result HasRoom }
    {
        Ok(Journal {
            keys: Vec::with_capacity(alloc, PLACES)?,
            autos: 0,
        })
    }

    /// A key was made, after all events so far. It takes no memory.
    #[tactic(auto, using(crate::proofs::Events::placed_key, crate::proofs::Events::bytes_key, crate::proofs::Events::events_key))]
    pub fn add_key(&mut self, byte: u8)
        requires room { HasRoom self.old }
        requires few { vec_len self.old.keys < max_keys }
        ensures events { (harts : ℕ) → events_of harts self.new ≡ events_of harts self.old ++ Key byte ∷ [] }
        ensures bytes { key_bytes self.new ≡ key_bytes self.old ++ byte ∷ [] }
        ensures autos { self.new.autos ≡ self.old.autos }
        ensures room { HasRoom self.new }
    {
        self.keys.push_reserved(LiveKey {
            before: self.autos,
            byte,
        });
    }

    /// The next event of `auto(0, harts)` was made.
    #[tactic(auto, using(crate::proofs::Events::placed_auto, crate::proofs::Events::events_auto))]
    pub fn add_auto(&mut self)
        requires count { CanCount self.old.autos }
        ensures events { (harts : ℕ) → events_of harts self.new ≡ events_of harts self.old ++ auto_event harts 0 self.old.autos ∷ [] }
        ensures bytes { key_bytes self.new ≡ key_bytes self.old }
        ensures autos { self.new.autos ≡ self.old.autos + 1 }
        ensures room { HasRoom self.old → HasRoom self.new }
    {
        self.autos += 1;
    }
}

/// Among the events of a journal, its bytes are those of the keys, in order and each once; the others are the first ones of
/// `auto(0, harts)`.
pub fn law_journal_events()
    ensures keys { (harts first : ℕ) (keys : List Placed) (last : ℕ) → keys_among (events_between harts first keys last) ≡ bytes_of keys }
    ensures others { (harts : ℕ) (keys : List Placed) (last : ℕ) → is_placed 0 keys last ≡ true →
        others_among (events_between harts 0 keys last) ≡ first_events last (Schedule.Auto harts 0) }
{}
