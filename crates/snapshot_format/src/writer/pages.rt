// The bytes of protections and of the kernel's text.

ghost use Rattle.std.specs.Prelude.{◌≡◌, ℕ, List, ◌++◌, true, OnOk};
ghost use Rattle.std.specs.List.{list_all};
ghost use Rattle.snapshot_format.specs.PageForms.{pages, protection_form, protection_number, protections, text, text_page};
ghost use Rattle.snapshot_format.specs.Typed.{is_typed_page};

use crate::TextPage;
use crate::protection_number::{APPROVED, FREE, HELD};
use crate::writer::values::write_number;
use std::alloc::AllocError;
use sv_types::Protection;

#[tactic(auto, unfolding(crate::specs::PageForms::pages))]
pub(crate) fn write_pages(
    out: &mut Vec<u8>,
    protection: &[Protection],
    kernel_text: &[TextPage],
) -> Result<(), AllocError>
    ensures encoded { (ram_pages : ℕ) → OnOk result (out.new.items ≡ out.old.items ++ (pages ram_pages).encode (protection.now, kernel_text.now)) }
    ensures typed { OnOk result (list_all is_typed_page kernel_text.now ≡ true) }
{
    write_protections(out, protection)?;
    write_text(out, kernel_text)
}

fn write_protections(out: &mut Vec<u8>, protection: &[Protection]) -> Result<(), AllocError>
    ensures { (ram_pages : ℕ) → OnOk result (out.new.items ≡ out.old.items ++ (protections ram_pages).encode protection.now) }
{
    'pages: for page in protection {
        out.push(protection_byte(*page))?;
    }
    Ok(())
}

fn protection_byte(protection: Protection) -> u8
    ensures { result ≡ protection_number protection }
{
    match protection {
        Protection::Free => FREE,
        Protection::Held => HELD,
        Protection::Approved => APPROVED,
    }
}

fn write_text(out: &mut Vec<u8>, text_pages: &[TextPage]) -> Result<(), AllocError>
    ensures encoded { (ram_pages : ℕ) → OnOk result (out.new.items ≡ out.old.items ++ (text ram_pages).encode text_pages.now) }
    ensures typed { OnOk result (list_all is_typed_page text_pages.now ≡ true) }
{
    write_number(out, text_pages.len() as u64)?;
    'pages: for page in text_pages {
        write_text_page(out, page)?;
    }
    Ok(())
}

#[tactic(auto, unfolding(crate::specs::PageForms::text_page))]
fn write_text_page(out: &mut Vec<u8>, page: &TextPage) -> Result<(), AllocError>
    ensures encoded { (ram_pages : ℕ) (before : List TextPage) → OnOk result (out.new.items ≡ out.old.items ++ (text_page ram_pages before).encode page.now) }
    ensures typed { OnOk result (is_typed_page page.now ≡ true) }
{
    write_number(out, u64::from(page.page))?;
    out.extend_from_slice(&page.digest)
}
