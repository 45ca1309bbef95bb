// A module's object as it is given.

ghost use Rattle.std.specs.Prelude.{◌≤◌, ◌^◌, length};

use sv_types::Name;

/// A module's object: its name, and the bytes of its file, of which there are at most 4 GiB.
#[derive(Drop)]
pub struct ObjectFile {
    pub name: Name,
    pub bytes: Vec<u8>,
    ghost short: { length bytes.items ≤ 2 ^ 32 },
}
