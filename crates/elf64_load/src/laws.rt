// Laws of the definitions alone. A law takes no argument and does nothing; its clause is the theorem.

ghost use Rattle.std.specs.Prelude.{◌≡◌, ℕ, List, None, flat_map};
ghost use Rattle.spec_processor.specs.Bytes.{page_bytes};
ghost use Rattle.sv_types.specs.Kernel.{kernel_refusal, kernel_segments, segments_ram, text_of, text_pages};

/// The text of a file that isn't refused is what RAM holds in the pages of its text, one after the other in ascending
/// order, once all segments are loaded.
pub fn law_text_in_ram()
    ensures { (file : List ℕ) (ram_pages : ℕ) → kernel_refusal file ram_pages ≡ None → text_of (kernel_segments file) ≡
        flat_map (page_bytes (segments_ram (kernel_segments file) ram_pages)) (text_pages (kernel_segments file)) }
{}
