// The journal of a run: which keys were made, and where.
ghost use Rattle.std.specs.Prelude.{◌≡◌, true};
ghost use Rattle.live_keys.specs.Placed.{is_placed, are_bytes};

use crate::live_key::LiveKey;

/// The keys that were made, and the number of the machine's other events. Each key stands after as many of these as it
/// says.
#[derive(Drop)]
pub struct Journal {
    pub keys: Vec<LiveKey>,
    pub autos: u64,
    ghost placed: { is_placed 0 keys.items autos ≡ true },
    ghost bytes: { are_bytes keys.items ≡ true },
}
