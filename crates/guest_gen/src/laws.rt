// A law of the definitions alone. It takes no argument and does nothing; its clause is the theorem.

ghost use Rattle.std.specs.Prelude.{ℕ};
ghost use Rattle.guest_gen.specs.Booting.{IsMeasuredKernel};
ghost use Rattle.guest_gen.specs.Generated.{generated_image, generated_policy};

/// The guest's file is never refused under its policy: it is a kernel for the policy's RAM, its text has the policy's
/// measure, and it begins at a permitted entry.
pub fn law_guest_boots()
    ensures { (n : ℕ) → IsMeasuredKernel (generated_image n) (generated_policy n) }
{}
