// The text of an object, as it is measured.

ghost use Rattle.std.specs.Prelude.{◌≡◌, IsTrue, IfOk, OnOk};
ghost use Rattle.std.specs.List.{list_all};
ghost use Rattle.elf64_reloc.specs.Layouts.{is_good_alignment};
ghost use Rattle.elf64_reloc.specs.Modules as spec;
ghost use Rattle.elf64_reloc.specs.Objects.{is_good_part};
ghost use Rattle.elf64_reloc.specs.Views.{object_view};

use crate::layout::{Space, padding, space_of};
use crate::object::Object;
use elf64_load::sections::{SectionHeader, part, push_zeros};
use spec_processor::PAGE_BYTES;
use std::alloc::{AllocError, Global};

// Puts a section of text after the text so far, at the next multiple of its alignment.
fn push_section(text: &mut Vec<u8>, file: &[u8], section: &SectionHeader) -> Result<(), AllocError>
    requires part { IsTrue (is_good_part file.now section.now) }
    requires alignment { IsTrue (is_good_alignment section.now) }
    ensures { OnOk result (text.new.items ≡ spec.text_behind file.now text.old.items section.now) }
{
    match space_of(section) {
        Space::Text => {
            push_zeros(text, padding(text.len() as u64, section.alignment) as usize)?;
            text.extend_from_slice(part(file, section))
        }
        Space::Data => Ok(()),
        Space::Elsewhere => Ok(()),
    }
}

/// The sections of text, each at its place, with zeros between them and up to whole pages. Fails where memory runs out.
#[tactic(auto, unfolding(crate::specs::Modules::text_of))]
pub(crate) fn text_of(alloc: Global, object: &Object) -> Result<Vec<u8>, AllocError>
    requires parts { IsTrue (list_all (is_good_part object.now.file.now) object.now.sections.items) }
    requires alignments { IsTrue (list_all is_good_alignment object.now.sections.items) }
    ensures { IfOk result (λ text. text.items ≡ spec.text_of (object_view object.now)) }
{
    let mut text = Vec::new(alloc);
    'sections: for section in &object.sections {
        push_section(&mut text, object.file, section)?;
    }
    let rest = padding(text.len() as u64, PAGE_BYTES) as usize;
    push_zeros(&mut text, rest)?;
    Ok(text)
}
