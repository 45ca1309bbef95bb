// The bytes of a whole snapshot.

ghost use Rattle.std.specs.Prelude.{◌≡◌, ◌++◌, true, OnOk, IfOk};
ghost use Rattle.std.specs.List.{list_all};
ghost use Rattle.snapshot_format.specs.Forms.{is_word};
ghost use Rattle.snapshot_format.specs.Snapshots.{body, contents, header, magic, snapshot, whole_body, whole_header};
ghost use Rattle.snapshot_format.specs.Typed.{IsTyped, are_words, load_numbers, verdict_numbers};
ghost use Rattle.snapshot_format.specs.Typed.{is_typed_hart, is_typed_module, is_typed_note, is_typed_page, is_typed_port};

use crate::writer::devices::write_devices;
use crate::writer::harts::write_harts;
use crate::writer::journal::write_journal;
use crate::writer::modules::write_gate;
use crate::writer::pages::write_pages;
use crate::writer::values::write_number;
use crate::{BLOCK_MAGIC, MAGIC_BYTES, PortKind, Snapshot, VIRTIO_MAGIC};
use std::alloc::{AllocError, Global};

/// The bytes of a snapshot. Out of memory is the one refusal.
#[tactic(auto, unfolding(crate::specs::Snapshots::snapshot))]
pub fn write(alloc: Global, s: &Snapshot) -> Result<Vec<u8>, AllocError>
    ensures encoded { IfOk result (λ bytes. bytes.items ≡ snapshot.encode (contents s.now)) }
    ensures typed { IfOk result (λ bytes. IsTyped (contents s.now)) }
{
    let mut out = Vec::new(alloc);
    write_header(&mut out, s)?;
    write_body(&mut out, s)?;
    Ok(out)
}

// The first bytes, by the device that the disk is behind.
fn magic_of(kind: PortKind) -> &'static [u8; MAGIC_BYTES]
    ensures { result.now ≡ magic kind }
{
    match kind {
        PortKind::Block => BLOCK_MAGIC,
        PortKind::Virtio => VIRTIO_MAGIC,
    }
}

#[tactic(auto, unfolding(crate::specs::Snapshots::header))]
fn write_header(out: &mut Vec<u8>, s: &Snapshot) -> Result<(), AllocError>
    ensures encoded { OnOk result (out.new.items ≡ out.old.items ++ header.encode (whole_header (contents s.now))) }
    ensures time { OnOk result (is_word s.now.machine.time ≡ true) }
{
    out.extend_from_slice(magic_of(PortKind::of(&s.machine.port)))?;
    write_number(out, s.events)?;
    write_number(out, s.machine.harts.len() as u64)?;
    write_number(out, s.machine.protection.len() as u64)?;
    write_number(out, s.machine.time)
}

#[tactic(auto, unfolding(crate::specs::Snapshots::body))]
fn write_body(out: &mut Vec<u8>, s: &Snapshot) -> Result<(), AllocError>
    ensures encoded { OnOk result (out.new.items ≡ out.old.items ++ (body (whole_header (contents s.now))).encode (whole_body (contents s.now))) }
    ensures harts { OnOk result (list_all is_typed_hart s.now.machine.harts.items ≡ true) }
    ensures text { OnOk result (list_all is_typed_page s.now.text.items ≡ true) }
    ensures modules { OnOk result (list_all is_typed_module s.now.machine.modules.items ≡ true) }
    ensures loading { OnOk result (are_words (load_numbers s.now.machine.loading) ≡ true) }
    ensures port { OnOk result (is_typed_port s.now.machine.port ≡ true) }
    ensures notes { OnOk result (list_all is_typed_note s.now.machine.notes.items ≡ true) }
    ensures verdict { OnOk result (are_words (verdict_numbers s.now.machine.verdict) ≡ true) }
{
    let machine = &s.machine;
    write_harts(out, &machine.harts)?;
    write_pages(out, &machine.protection, &s.text)?;
    write_gate(out, machine)?;
    write_devices(out, machine)?;
    write_journal(out, machine)?;
    out.extend_from_slice(&machine.ram)
}
