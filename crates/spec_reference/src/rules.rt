// What the policy says of a module.

ghost use Rattle.std.specs.Prelude.{◌≡◌, slice_get};
ghost use Rattle.sv_types.specs.Policies.{rules_of};
ghost use Rattle.spec_reference.specs.States.{pages_in_rule};

use sv_types::Policy;

/// The number of a module's pages, 0 where the policy has no such module.
pub fn pages_of(policy: &Policy, id: u64) -> u32
    ensures { result ≡ pages_in_rule (slice_get (rules_of policy.now).modules id) }
{
    match policy.modules.get(id as usize) {
        Some(rule) => rule.pages,
        None => 0,
    }
}
