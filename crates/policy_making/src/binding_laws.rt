// Laws of the definitions alone. A law takes no argument and does nothing; its clause is the theorem.

ghost use Rattle.std.specs.Prelude.{◌≡◌, ℕ, List, None, Ok, true};
ghost use Rattle.std.specs.List.{list_all};
ghost use Rattle.sv_types.specs.Kernel.{kernel_refusal, kernel_segments};
ghost use Rattle.sv_types.specs.Policies.{Rules, rules_within};
ghost use Rattle.policy_making.specs.Binding.{bound_rules};
ghost use Rattle.policy_making.specs.InText.{is_in_text};

/// The policy that one within its limits becomes for a kernel of its RAM is within its limits.
pub fn law_bound_within_limits()
    ensures { (file : List ℕ) (rules made : Rules) → kernel_refusal file rules.ram_pages ≡ None → rules_within rules ≡ true →
        bound_rules rules (kernel_segments file) ≡ Ok made → rules_within made ≡ true }
{}

/// Each entry is then bound to an address in a page of the kernel's text.
pub fn law_bound_in_text()
    ensures { (file : List ℕ) (rules made : Rules) → kernel_refusal file rules.ram_pages ≡ None → rules_within rules ≡ true →
        bound_rules rules (kernel_segments file) ≡ Ok made → list_all (is_in_text (kernel_segments file)) made.bound ≡ true }
{}
