// What the policy says of a module, and the pages that a module takes.

ghost use Rattle.std.specs.Prelude.{◌≡◌, ◌<◌, ◌^◌, option_map, slice_get};
ghost use Rattle.spec_processor.specs.Bytes.{page_of};
ghost use Rattle.sv_types.specs.Policies.{rules_of, module_rule};
ghost use Rattle.module_gate.specs.Gates.{pages_at, module_span};

use spec_processor::page_of;
use spec_reference::pages_of;
use sv_types::{ModulePlacement, ModulePolicy, Policy, Span};

/// The policy's rule of a module.
pub fn rule_of(policy: &Policy, id: u64) -> Option<&ModulePolicy>
    ensures { option_map (λ m. module_rule m.now) result ≡ slice_get (rules_of policy.now).modules id }
{
    policy.modules.get(id as usize)
}

/// So many pages from a guest-physical address on.
pub fn pages_at(gpa: u64, count: u32) -> Span
    requires { page_of gpa < 2 ^ 32 }
    ensures { result ≡ pages_at gpa count }
{
    Span {
        first: page_of(gpa) as u32,
        count,
    }
}

/// The pages of a loaded module, as many as the policy says.
pub fn module_pages(policy: &Policy, about: &ModulePlacement) -> Span
    requires { page_of about.now.gpa < 2 ^ 32 }
    ensures { result ≡ module_span (rules_of policy.now) about.now }
{
    pages_at(about.gpa, pages_of(policy, about.id))
}
