// Files in memory.
ghost use Rattle.std.specs.Prelude.{◌≡◌, ◌≢◌, ◌<◌, ◌-◌, ℕ, List, Option, ◌+◌, ◌↔◌, IfOk, OnOk, OnErr, IsErrOf, IfErr, AllPairs, IsTrue};
ghost use Rattle.std.specs.Prelude.{◌≤◌, Some, length, vec_len, vec_capacity, ◌&&◌, not, ◌==◌, [], false};
ghost use Rattle.std.specs.Option.{option_copied};
ghost use Rattle.std.specs.Result.{is_err};
ghost use Rattle.host_io.specs.Outside.{ReadTells, ReadLeaves, TryFails, after_saving};
ghost use Rattle.spec_processor.specs.Counters.{CanCount, next_count};
ghost use Rattle.host_io.specs.Held.{contents, held_in, is_barred, memory_state, is_to_fail, is_name_text, save_fails, HaveRoom, IsTooLongOrMemory};

use crate::calls::{call_number, is_to_fail};
use crate::{FileRefusal, Files, SaveFailed};
use std::alloc::{AllocError, Global};
use sv_types::Name;

/// Files in memory, with the reads and saves that are to fail. They take all their room when they are made.
#[derive(Drop)]
pub struct MemFiles {
    files: Vec<(Name, Vec<u8>)>,
    spare: Vec<Vec<u8>>,
    room: usize,
    failing_reads: Vec<u64>,
    failing_saves: Vec<u64>,
    // No file can be made under these names.
    barred: Vec<Name>,
    reads: u64,
    saves: u64,
    read_faults: u64,
    save_faults: u64,
    ghost places: { vec_len files + vec_len spare ≤ vec_capacity files },
    ghost rooms: { HaveRoom room spare.items },
}

impl MemFiles {
    /// Files that hold these names, with room for `saves` saves of `room` bytes in all. The reads and saves of the given
    /// numbers, counted from 1, fail; so does a save beyond the room, or under a text that is no `Name`.
    pub fn new(
        alloc: Global,
        held: &[(Name, Vec<u8>)],
        saves: usize,
        room: usize,
        failing_reads: &[u64],
        failing_saves: &[u64],
    ) -> Result<MemFiles, AllocError>
        requires once { AllPairs (λ a b. a.0 ≢ b.0) held.now }
        ensures held { IfOk result (λ f. contents f.files.items ≡ contents held.now) }
        ensures reads { IfOk result (λ f. f.read_faults ≡ 0) }
        ensures saves { IfOk result (λ f. f.save_faults ≡ 0) }
        ensures failing_reads { IfOk result (λ f. (f.failing_reads.items ≡ failing_reads.now) × (f.reads ≡ 0)) }
        ensures failing_saves { IfOk result (λ f. (f.failing_saves.items ≡ failing_saves.now) × (f.saves ≡ 0)) }
        ensures barred { IfOk result (λ f. f.barred.items ≡ []) }
        ensures room { IfOk result (λ f. (f.room ≡ room) × (vec_len f.spare ≡ saves)) }
    {
        Ok(MemFiles {
            files: copied_files(alloc, held, saves)?,
            spare: spare_rooms(alloc, saves, room)?,
            room,
            failing_reads: failing_reads.to_vec(alloc)?,
            failing_saves: failing_saves.to_vec(alloc)?,
            barred: Vec::new(alloc),
            reads: 0,
            saves: 0,
            read_faults: 0,
            save_faults: 0,
        })
    }

    /// From now on no file can be made under these names, in place of those before, and their tries fail. It takes no memory.
    pub fn bar(&mut self, barred: Vec<Name>)
        ensures { self.new ≡ record self.old { barred = barred } }
    {
        self.barred = barred;
    }

    /// The bytes that a name holds. None exactly where it isn't held.
    pub fn bytes(&self, name: &str) -> Option<&[u8]>
        ensures { option_copied result ≡ held_in self.now.files.items name.now }
    {
        self.files
            .iter()
            .find(|file| file.0.text() == name)
            .map(|file| file.1.as_slice())
    }
}

fn is_barred(barred: &[Name], name: &str) -> bool
    ensures { result ≡ is_barred barred.now name.now }
{
    barred.iter().any(|one| one.text() == name)
}

fn copied_files(
    alloc: Global,
    held: &[(Name, Vec<u8>)],
    saves: usize,
) -> Result<Vec<(Name, Vec<u8>)>, AllocError>
    ensures files { IfOk result (λ files. contents files.items ≡ contents held.now) }
    ensures places { IfOk result (λ files. vec_len files + saves ≤ vec_capacity files) }
{
    let Some(places) = held.len().checked_add(saves) else {
        return Err(AllocError);
    };
    let mut files = Vec::with_capacity(alloc, places)?;
    for file in held {
        let bytes = file.1.to_vec(alloc)?;
        files.push((file.0, bytes))?;
    }
    Ok(files)
}

fn spare_rooms(alloc: Global, saves: usize, room: usize) -> Result<Vec<Vec<u8>>, AllocError>
    ensures count { IfOk result (λ rooms. vec_len rooms ≡ saves) }
    ensures rooms { IfOk result (λ rooms. HaveRoom room rooms.items) }
{
    let mut rooms = Vec::new(alloc);
    'spares: while rooms.len() < saves {
        rooms.push(Vec::with_capacity(alloc, room)?)?;
    }
    Ok(rooms)
}

impl Files for MemFiles {
    ghost state = { λ f. memory_state f.files.items f.barred.items f.read_faults f.save_faults };

    fn read(&mut self, alloc: Global, name: &str, limit: usize) -> Result<Vec<u8>, FileRefusal>
        requires count { CanCount self.old.read_faults }
        ensures tells { ReadTells (memory_state self.old.files.items self.old.barred.items self.old.read_faults self.old.save_faults) name.now limit result }
        ensures leaves { ReadLeaves (memory_state self.old.files.items self.old.barred.items self.old.read_faults self.old.save_faults)
            (memory_state self.new.files.items self.new.barred.items self.new.read_faults self.new.save_faults) name.now limit result }
        // A read fails exactly where its number is listed.
        ensures fails { IsErrOf result FileRefusal.Failed ↔ IsTrue (is_to_fail self.old.failing_reads.items self.old.reads) }
        ensures counted { self.new.reads ≡ next_count self.old.reads }
        ensures faults { self.new.read_faults ≤ self.old.read_faults + 1 }
        ensures failing { (self.new.failing_reads ≡ self.old.failing_reads) × (self.new.failing_saves ≡ self.old.failing_saves) }
        ensures barred { self.new.barred ≡ self.old.barred }
        ensures room { (self.new.room ≡ self.old.room) × (self.new.saves ≡ self.old.saves) }
    {
        let is_to_fail = is_to_fail(&self.failing_reads, self.reads);
        self.reads = call_number(self.reads);
        if is_to_fail {
            self.read_faults += 1;
            return Err(FileRefusal::Failed);
        }
        match self.bytes(name) {
            None => Err(FileRefusal::Absent),
            Some(bytes) => copy_within(alloc, bytes, limit),
        }
    }

    #[tactic(auto, using(crate::proofs::Rooms::room_for_less))]
    fn save(&mut self, name: &str, bytes: &[u8]) -> Result<(), SaveFailed>
        requires count { CanCount self.old.save_faults }
        ensures saved { OnOk result (held_in self.new.files.items name.now ≡ Some bytes.now) }
        ensures others { (other : List ℕ) → other ≢ name.now → held_in self.new.files.items other ≡ held_in self.old.files.items other }
        ensures fault { OnErr result (self.new.save_faults ≡ self.old.save_faults + 1) }
        ensures no_fault { OnOk result (self.new.save_faults ≡ self.old.save_faults) }
        ensures leaves { memory_state self.new.files.items self.new.barred.items self.new.read_faults self.new.save_faults ≡
            record (after_saving name.now bytes.now (memory_state self.old.files.items self.old.barred.items self.old.read_faults
            self.old.save_faults)) { held = held_in self.new.files.items; save_faults = self.new.save_faults } }
        // A save fails exactly where its number is listed, the room that is left is exceeded, no file more has a place, or the
        // text is no name. Then every name holds what it held.
        ensures fails { is_err result ≡ save_fails self.old.failing_saves.items self.old.saves self.old.room (vec_len self.old.spare) name.now bytes.now }
        ensures kept { OnErr result (self.new.files.items ≡ self.old.files.items) }
        ensures counted { self.new.saves ≡ next_count self.old.saves }
        ensures failing { (self.new.failing_reads ≡ self.old.failing_reads) × (self.new.failing_saves ≡ self.old.failing_saves) }
        ensures barred { self.new.barred ≡ self.old.barred }
        // The room is that of all saves together, and each takes the place of a file.
        ensures room { OnOk result (self.new.room + length bytes.now ≡ self.old.room) }
        ensures place { OnOk result (vec_len self.new.spare + 1 ≡ vec_len self.old.spare) }
        ensures kept_room { OnErr result ((self.new.room ≡ self.old.room) × (vec_len self.new.spare ≡ vec_len self.old.spare)) }
        ensures reads { self.new.reads ≡ self.old.reads }
    {
        let is_to_fail = is_to_fail(&self.failing_saves, self.saves);
        self.saves = call_number(self.saves);
        if is_to_fail
            || self.room < bytes.len()
            || !put(&mut self.files, &mut self.spare, name, bytes)
        {
            self.save_faults += 1;
            return Err(SaveFailed);
        }
        self.room -= bytes.len();
        Ok(())
    }

    fn try_save(&mut self, name: &str) -> Result<(), SaveFailed>
        requires count { CanCount self.old.save_faults }
        // A try fails exactly under a name that is barred. It is no save.
        ensures fails { is_err result ≡ is_barred self.old.barred.items name.now }
        ensures free { OnOk result (is_barred self.old.barred.items name.now ≡ false) }
        ensures same { OnOk result (self.new ≡ self.old) }
        ensures counted { OnErr result (self.new ≡ record self.old { save_faults = self.old.save_faults + 1 }) }
        ensures failed { OnErr result (TryFails (memory_state self.old.files.items self.old.barred.items self.old.read_faults self.old.save_faults)
            (memory_state self.new.files.items self.new.barred.items self.new.read_faults self.new.save_faults)) }
    {
        if is_barred(&self.barred, name) {
            self.save_faults += 1;
            return Err(SaveFailed);
        }
        Ok(())
    }
}

fn copy_within(alloc: Global, bytes: &[u8], limit: usize) -> Result<Vec<u8>, FileRefusal>
    ensures ok { IfOk result (λ v. (v.items ≡ bytes.now) × (length v.items ≤ limit)) }
    ensures err { IfErr result (λ e. IsTooLongOrMemory (length bytes.now) limit e) }
{
    if bytes.len() > limit {
        return Err(FileRefusal::TooLong);
    }
    match bytes.to_vec(alloc) {
        Ok(copy) => Ok(copy),
        Err(_) => Err(FileRefusal::Memory),
    }
}

// Puts a file in front, in a room that is spare. False exactly where the text is no name, or no room is spare: then all
// stays as it was. It takes no memory.
#[tactic(auto, using(crate::proofs::Rooms::rooms_left))]
fn put(files: &mut Vec<(Name, Vec<u8>)>, spare: &mut Vec<Vec<u8>>, name: &str, bytes: &[u8]) -> bool
    requires places { vec_len files.old + vec_len spare.old ≤ vec_capacity files.old }
    requires rooms { HaveRoom (length bytes.now) spare.old.items }
    ensures done { result ≡ (is_name_text name.now && not (vec_len spare.old == 0)) }
    ensures put { IsTrue result → held_in files.new.items name.now ≡ Some bytes.now }
    ensures others { (other : List ℕ) → other ≢ name.now → held_in files.new.items other ≡ held_in files.old.items other }
    ensures places { vec_len files.new + vec_len spare.new ≤ vec_capacity files.new }
    ensures taken { IsTrue result → vec_len spare.new + 1 ≡ vec_len spare.old }
    ensures kept { result ≡ false → (files.new.items ≡ files.old.items) × (vec_len spare.new ≡ vec_len spare.old) }
    ensures rooms { (room : ℕ) → HaveRoom room spare.old.items → HaveRoom room spare.new.items }
{
    let Some(name) = Name::new(name) else {
        return false;
    };
    let Some(room) = spare.pop() else {
        return false;
    };
    put_in_front(files, name, room, bytes);
    true
}

// Puts a file in front, for which there is a place, in a room that holds its bytes.
fn put_in_front(files: &mut Vec<(Name, Vec<u8>)>, name: Name, mut room: Vec<u8>, bytes: &[u8])
    requires place { vec_len files.old < vec_capacity files.old }
    requires room { length bytes.now ≤ vec_capacity room }
    ensures put { held_in files.new.items name ≡ Some bytes.now }
    ensures others { (other : List ℕ) → other ≢ name → held_in files.new.items other ≡ held_in files.old.items other }
    ensures count { vec_len files.new ≡ vec_len files.old + 1 }
    ensures capacity { vec_capacity files.old ≤ vec_capacity files.new }
{
    room.clear();
    if room.extend_from_slice(bytes).is_err() {
        unreachable!();
    }
    if files.insert(0, (name, room)).is_err() {
        unreachable!();
    }
}
