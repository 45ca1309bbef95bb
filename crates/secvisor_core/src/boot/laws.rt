// A law of the definitions alone: it takes no argument and does nothing, and its clause is the theorem.

ghost use Rattle.std.specs.Prelude.{◌≡◌, ℕ, List, None};
ghost use Rattle.sv_types.specs.Kernel.{kernel_refusal, kernel_segments};
ghost use Rattle.secvisor_core.specs.Placed.{ArePlaced};

/// The segments of a file that isn't refused lie in RAM.
pub fn law_accepted_segments()
    ensures { (file : List ℕ) (ram_pages : ℕ) → kernel_refusal file ram_pages ≡ None → ArePlaced ram_pages (kernel_segments file) }
{}
