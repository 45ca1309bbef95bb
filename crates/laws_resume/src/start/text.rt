// The pages of a machine's text with their digests.

ghost use Rattle.std.specs.Prelude.{◌≡◌, ◌≤◌, length, IfOk};
ghost use Rattle.spec_processor.specs.Regions.{max_ram_pages};
ghost use Rattle.laws_resume.specs.TextPages.{paired_text};

use snapshot_format::TextPage;
use std::alloc::{AllocError, Global};
use sv_types::{Digest, Protection};

/// The approved pages, ascending, each with its digest: `digests` has them in the same order. `protections` has one for each page
/// of RAM. Out of memory is the one refusal.
#[tactic(auto, unfolding(crate::specs::TextPages::paired_text))]
pub fn text_pages(
    alloc: Global,
    protections: &[Protection],
    digests: &[Digest],
) -> Result<Vec<TextPage>, AllocError>
    requires few { length protections.now ≤ max_ram_pages }
    ensures { IfOk result (λ text. text.items ≡ paired_text protections.now digests.now) }
{
    let mut text = Vec::new(alloc);
    'pages: for page in 0..protections.len() {
        if protections[page].is_approved() {
            if let Some(digest) = digests.get(text.len()) {
                text.push(TextPage {
                    page: page as u32,
                    digest: *digest,
                })?;
            }
        }
    }
    Ok(text)
}
