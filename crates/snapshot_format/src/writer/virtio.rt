// The bytes of the virtio block device.

ghost use Rattle.std.specs.Prelude.{◌≡◌, ℕ, [], ◌∷◌, ◌++◌, true, nat_lt, OnOk};
ghost use Rattle.std.specs.List.{list_all};
ghost use Rattle.spec_reference.specs.VirtioDevice.{index_values};
ghost use Rattle.snapshot_format.specs.Forms.{is_word};
ghost use Rattle.snapshot_format.specs.Typed.{are_short, are_words, is_typed_part, is_typed_request, is_typed_under_way, is_typed_virtio, selected_numbers};
ghost use Rattle.snapshot_format.specs.VirtioForms.{accepted, descriptor, descriptors, progress, queue, request_form, request_parts, request_under_way};
ghost use Rattle.snapshot_format.specs.VirtioForms.{selection, state_parts, virtio};

use crate::writer::values::{write_flag, write_number};
use std::alloc::AllocError;
use sv_types::{VirtioPart, VirtioRequest, VirtioState};

#[tactic(auto, unfolding(crate::specs::VirtioForms::virtio, crate::specs::VirtioForms::in_use))]
pub(crate) fn write_virtio(out: &mut Vec<u8>, state: &VirtioState) -> Result<(), AllocError>
    ensures encoded { OnOk result (out.new.items ≡ out.old.items ++ virtio.encode state.now) }
    ensures typed { OnOk result (is_typed_virtio state.now ≡ true) }
{
    write_selection(out, state)?;
    write_flag(out, state.ready)?;
    write_queue(out, state)?;
    write_under_way(out, &state.request)
}

// Which features are read and written, those that were taken, the queue and its size.
#[tactic(auto, unfolding(crate::specs::VirtioForms::selection, crate::specs::VirtioForms::register))]
fn write_selection(out: &mut Vec<u8>, state: &VirtioState) -> Result<(), AllocError>
    ensures encoded { OnOk result (out.new.items ≡ out.old.items ++ selection.encode (state_parts state.now).0) }
    ensures typed { OnOk result (are_short (selected_numbers state.now) ≡ true) }
{
    write_number(out, u64::from(state.device_select))?;
    write_number(out, u64::from(state.driver_select))?;
    write_number(out, u64::from(state.driver_low))?;
    write_number(out, u64::from(state.driver_high))?;
    write_number(out, u64::from(state.queue))?;
    write_number(out, u64::from(state.size))
}

// Interrupt, status, the parts of the queue, and the number of accepted requests.
#[tactic(auto, unfolding(crate::proofs::WrittenForms::queue_forms))]
fn write_queue(out: &mut Vec<u8>, state: &VirtioState) -> Result<(), AllocError>
    ensures encoded { OnOk result (out.new.items ≡ out.old.items ++ (queue state.now.ready).encode (state_parts state.now).1.1.0) }
    ensures short { OnOk result (are_short (state.now.interrupt ∷ state.now.status ∷ []) ≡ true) }
    ensures words { OnOk result (are_words (state.now.descriptors ∷ state.now.available ∷ state.now.used ∷ []) ≡ true) }
{
    write_number(out, u64::from(state.interrupt))?;
    write_number(out, u64::from(state.status))?;
    write_number(out, state.descriptors)?;
    write_number(out, state.available)?;
    write_number(out, state.used)?;
    write_number(out, state.accepted)
}

// ---- the request

#[tactic(auto, unfolding(crate::specs::VirtioForms::request_under_way, crate::specs::VirtioForms::request_flag, crate::specs::VirtioForms::request_after))]
fn write_under_way(out: &mut Vec<u8>, under_way: &Option<VirtioRequest>) -> Result<(), AllocError>
    ensures encoded { (status : ℕ) → OnOk result (out.new.items ≡ out.old.items ++ (request_under_way status).encode under_way.now) }
    ensures typed { OnOk result (is_typed_under_way under_way.now ≡ true) }
{
    match under_way {
        None => write_flag(out, false),
        Some(request) => {
            write_flag(out, true)?;
            write_request(out, request)
        }
    }
}

#[tactic(auto, unfolding(crate::specs::VirtioForms::request_form, crate::specs::VirtioForms::place_reached))]
fn write_request(out: &mut Vec<u8>, request: &VirtioRequest) -> Result<(), AllocError>
    ensures encoded { OnOk result (out.new.items ≡ out.old.items ++ request_form.encode request.now) }
    ensures typed { OnOk result (is_typed_request request.now ≡ true) }
{
    write_accepted(out, request)?;
    write_number(out, u64::from(request.part))?;
    write_descriptors(out, &request.parts)?;
    write_progress(out, request)
}

// Head, sector, the queue's size and used ring, and the number of descriptors.
#[tactic(auto, unfolding(crate::specs::VirtioForms::accepted, crate::specs::VirtioForms::ring_index))]
fn write_accepted(out: &mut Vec<u8>, request: &VirtioRequest) -> Result<(), AllocError>
    ensures encoded { OnOk result (out.new.items ≡ out.old.items ++ accepted.encode (request_parts request.now).0) }
    ensures head { OnOk result (nat_lt request.now.head index_values ≡ true) }
    ensures sector { OnOk result (is_word request.now.sector ≡ true) }
{
    write_number(out, u64::from(request.head))?;
    write_number(out, request.sector)?;
    write_number(out, u64::from(request.size))?;
    write_number(out, request.used)?;
    write_number(out, u64::from(request.count))
}

fn write_descriptors(out: &mut Vec<u8>, parts: &[VirtioPart]) -> Result<(), AllocError>
    ensures encoded { (count reached : ℕ) → OnOk result (out.new.items ≡ out.old.items ++ (descriptors count reached).encode parts.now) }
    ensures typed { OnOk result (list_all is_typed_part parts.now ≡ true) }
{
    'parts: for part in parts {
        write_descriptor(out, part)?;
    }
    Ok(())
}

#[tactic(auto, unfolding(crate::specs::VirtioForms::descriptor, crate::specs::VirtioForms::register))]
fn write_descriptor(out: &mut Vec<u8>, part: &VirtioPart) -> Result<(), AllocError>
    ensures encoded { OnOk result (out.new.items ≡ out.old.items ++ descriptor.encode part.now) }
    ensures typed { OnOk result (is_typed_part part.now ≡ true) }
{
    write_number(out, part.gpa)?;
    write_number(out, u64::from(part.len))?;
    write_flag(out, part.write)
}

// The bytes moved of the descriptor that is reached, the last moves that are made, the result, and the written bytes.
#[tactic(auto, unfolding(crate::specs::VirtioForms::progress, crate::specs::VirtioForms::register, crate::specs::VirtioForms::result_form))]
fn write_progress(out: &mut Vec<u8>, request: &VirtioRequest) -> Result<(), AllocError>
    ensures encoded { (count reached : ℕ) →
        OnOk result (out.new.items ≡ out.old.items ++ (progress count reached request.now.parts).encode (request_parts request.now).1.1.1) }
    ensures typed { OnOk result (are_short (request.now.offset ∷ request.now.written ∷ []) ≡ true) }
{
    write_number(out, u64::from(request.offset))?;
    write_number(out, u64::from(request.tail))?;
    write_number(out, request.result.number())?;
    write_number(out, u64::from(request.written))
}
