// The text of a machine with its digests.

ghost use Rattle.std.specs.Prelude.{◌≡◌, ◌≤◌, length, IfOk};
ghost use Rattle.spec_processor.specs.Regions.{max_ram_pages};
ghost use Rattle.spec_reference.specs.States.{State};
ghost use Rattle.spec_hardware.specs.StandsFor.{StandsFor};
ghost use Rattle.laws_resume.specs.TextPages.{digested_text, paired_text};
ghost use Rattle.machine.specs.Boot.{HasDigests};

use crate::events::System;
use crate::machine::Machine;
use laws_resume::start::text_pages;
use snapshot_format::TextPage;
use std::alloc::{AllocError, Global};
use sv_types::Digest;

impl Machine {
    /// The approved pages of the machine, ascending, each with the SHA-256 of the bytes that RAM has there now, which are the digests
    /// that are handed in. Nothing of the machine changes. Out of memory is the one refusal.
    pub fn text(&self, alloc: Global, digests: &[Digest]) -> Result<Vec<TextPage>, AllocError>
        requires digests { HasDigests self.now digests.now }
        ensures { IfOk result (λ text. (r : State) → StandsFor self.now r → text.items ≡ digested_text r) }
    {
        text_of(&self.system, alloc, digests)
    }
}

// The approved pages of the system with such digests.
fn text_of(system: &System, alloc: Global, digests: &[Digest]) -> Result<Vec<TextPage>, AllocError>
    requires few { length system.now.protections ≤ max_ram_pages }
    ensures { IfOk result (λ text. text.items ≡ paired_text system.now.protections digests.now) }
{
    text_pages(alloc, system.visor.guard.protections(), digests)
}
