// The fields that relocations change.

ghost use Rattle.std.specs.Prelude.{◌≡◌, ◌++◌, ℕ, [], Ok, Some, find, if◌then◌else◌, option_map, IfOk, IfErr, OnOk};
ghost use Rattle.elf64_reloc.specs.declared.asked.Asked.TheVariants.{Field};
ghost use Rattle.std.specs.BTreeMap.{get};
ghost use Rattle.std.specs.Ordering.{nat_cmp};
ghost use Rattle.elf64_reloc.specs.Modules as spec;
ghost use Rattle.elf64_reloc.specs.Refusals.{Refuses};
ghost use Rattle.elf64_reloc.specs.JudgingViews.{judging_view};

use crate::asked::{Asked, asked_bytes, is_high, place_alignment};
use crate::fault::ObjectFault;
use crate::refusal::RelocRefusal;
use crate::relocations::Relocation;
use crate::symbols::{Names, Target, symbol_target};
use policy_limits::is_low_part;
use spec_processor::INSTRUCTION_BYTES;
use std::alloc::{AllocError, Global};
use std::collections::BTreeMap;
use sv_types::{NO_BASE, RelocationKind, Site, TEXT_BASE};

/// What relocations are judged by: the symbols, and the first high part of an address at each place.
#[derive(Clone, Copy, Drop)]
pub(crate) struct Judging<'a, 'n> {
    pub(crate) names: Names<'a, 'n>,
    pub(crate) highs: &'a BTreeMap<u64, Relocation>,
}

/// The field of a relocation, or the two fields of a call.
#[derive(Clone, Copy, Drop)]
pub struct Found {
    pub first: Site,
    pub second: Option<Site>,
}

// Keeps a relocation at its place, if it is the high part of an address.
fn keep_high(
    highs: &mut BTreeMap<u64, Relocation>,
    relocation: &Relocation,
) -> Result<(), AllocError>
    ensures { OnOk result ((place : ℕ) → get nat_cmp highs.new place ≡
        (if spec.is_high_at place relocation.now then Some relocation.now else get nat_cmp highs.old place)) }
{
    if is_high(Asked::of(relocation.kind)) {
        highs.insert(relocation.place, *relocation)?;
    }
    Ok(())
}

/// The first high part of an address at each place. Fails where memory runs out.
pub(crate) fn high_parts(
    alloc: Global,
    relocations: &[Relocation],
) -> Result<BTreeMap<u64, Relocation>, AllocError>
    ensures { IfOk result (λ highs. (place : ℕ) → get nat_cmp highs place ≡ find (spec.is_high_at place) relocations.now) }
{
    let mut highs = BTreeMap::new(alloc);
    'relocations: for i in (0..relocations.len()).rev() {
        keep_high(&mut highs, &relocations[i])?;
    }
    Ok(highs)
}

fn site_at(place: u64, kind: RelocationKind, target: Target, addend: u64, anchor: u64) -> Site
    ensures { result ≡ spec.site_at place kind target addend anchor }
{
    Site {
        offset: (place % 0x1_0000_0000) as u32,
        kind,
        base: target.base,
        addend: target.value.wrapping_add(addend).cast_signed(),
        anchor: (anchor % 0x1_0000_0000) as u32,
    }
}

fn call_fields(relocation: &Relocation, target: Target) -> Found
    ensures { result ≡ spec.call_fields relocation.now target }
{
    let place = relocation.place;
    let addend = relocation.addend;
    let behind = place.wrapping_add(INSTRUCTION_BYTES);
    Found {
        first: site_at(place, RelocationKind::PcrelHi20, target, addend, place),
        second: Some(site_at(behind, RelocationKind::PcrelLo12I, target, addend, place)),
    }
}

fn or_nothing(target: Option<Target>) -> Target
    ensures { result ≡ spec.or_nothing target }
{
    match target {
        Some(target) => target,
        None => Target {
            base: NO_BASE,
            value: 0,
        },
    }
}

fn low_fields(
    judging: &Judging,
    relocation: &Relocation,
    kind: RelocationKind,
    high: Option<&Relocation>,
) -> Result<Found, ObjectFault>
    ensures { result ≡ spec.low_fields (judging_view judging.now) relocation.now kind (option_map (λ h. h.now) high.entry) }
{
    match high {
        Some(high) => {
            let target = or_nothing(symbol_target(&judging.names, high.symbol));
            Ok(Found {
                first: site_at(relocation.place, kind, target, high.addend, high.place),
                second: None,
            })
        }
        None => Err(ObjectFault::NoHighPart),
    }
}

// The field of a relocation that isn't a call.
fn one_field(
    judging: &Judging,
    relocation: &Relocation,
    kind: RelocationKind,
    target: Target,
) -> Result<Found, ObjectFault>
    ensures { result ≡ spec.fields_for (judging_view judging.now) relocation.now (Field kind) target }
{
    let place = relocation.place;
    if !is_low_part(kind) {
        return Ok(Found {
            first: site_at(place, kind, target, relocation.addend, place),
            second: None,
        });
    }
    if relocation.addend != 0 || target.base != TEXT_BASE {
        return Err(ObjectFault::NoHighPart);
    }
    let high = judging.highs.get(&target.value);
    low_fields(judging, relocation, kind, high)
}

fn fields_for(
    judging: &Judging,
    relocation: &Relocation,
    asked: Asked,
    target: Target,
) -> Result<Found, ObjectFault>
    ensures { result ≡ spec.fields_for (judging_view judging.now) relocation.now asked target }
{
    match asked {
        Asked::Field(kind) => one_field(judging, relocation, kind, target),
        Asked::Call => Ok(call_fields(relocation, target)),
    }
}

fn fields_with(
    judging: &Judging,
    relocation: &Relocation,
    asked: Asked,
    target: Option<Target>,
) -> Result<Found, ObjectFault>
    ensures { result ≡ spec.fields_with (judging_view judging.now) relocation.now asked target }
{
    let Some(target) = target else {
        return Err(ObjectFault::Symbol);
    };
    let end = relocation.offset as u128 + asked_bytes(asked) as u128;
    if end > relocation.size as u128 {
        return Err(ObjectFault::OutsideSection);
    }
    fields_for(judging, relocation, asked, target)
}

fn fields_asked(
    judging: &Judging,
    relocation: &Relocation,
    asked: Option<Asked>,
) -> Result<Found, ObjectFault>
    ensures { result ≡ spec.fields_asked (judging_view judging.now) relocation.now asked }
{
    match asked {
        Some(asked) => {
            let target = symbol_target(&judging.names, relocation.symbol);
            fields_with(judging, relocation, asked, target)
        }
        None => Err(ObjectFault::Kind {
            number: relocation.kind,
        }),
    }
}

/// The fields of a relocation, or its first fault.
#[tactic(auto, unfolding(crate::specs::Modules::fields_judged))]
pub(crate) fn fields_judged(
    judging: &Judging,
    relocation: &Relocation,
) -> Result<Found, ObjectFault>
    ensures { result ≡ spec.fields_judged (judging_view judging.now) relocation.now }
{
    let asked = Asked::of(relocation.kind);
    if relocation.place % place_alignment(asked) != 0 {
        return Err(ObjectFault::Alignment);
    }
    fields_asked(judging, relocation, asked)
}

fn push_found(sites: &mut Vec<Site>, found: Found) -> Result<(), AllocError>
    ensures { OnOk result (sites.new.items ≡ sites.old.items ++ spec.found_sites found) }
{
    sites.push(found.first)?;
    if let Some(second) = found.second {
        sites.push(second)?;
    }
    Ok(())
}

/// The fields of all relocations, in their order, or the first fault.
pub(crate) fn all_fields(
    alloc: Global,
    judging: &Judging,
    relocations: &[Relocation],
) -> Result<Vec<Site>, RelocRefusal>
    ensures ok { IfOk result (λ sites. spec.each_judged (judging_view judging.now) [] relocations.now ≡ Ok sites.items) }
    ensures refused { IfErr result (Refuses (spec.each_judged (judging_view judging.now) [] relocations.now)) }
{
    let mut sites = Vec::new(alloc);
    'relocations: for relocation in relocations {
        let found = fields_judged(judging, relocation)?;
        push_found(&mut sites, found)?;
    }
    Ok(sites)
}
