// Laws of the definitions alone. A law takes no argument and does nothing; its clauses are the theorem.

ghost use Rattle.std.specs.Prelude.{◌≡◌, ℕ, All, Bool, true, List, Ok, map};
ghost use Rattle.std.specs.Cmp.Lexicographic.{slice_cmp};
ghost use Rattle.std.specs.List.{list_any};
ghost use Rattle.std.specs.List.Sorted.{IsStrictlySortedBy};
ghost use Rattle.std.specs.Ordering.{nat_cmp};
ghost use Rattle.policy_making.specs.Making.{ModuleFile, Terms, each_once, exports_wanted, file_names, policy_after};
ghost use Rattle.policy_making.specs.Ranges.{IsShort, terms_within};
ghost use Rattle.policy_making.specs.WordRanges.{are_module_names};
ghost use Rattle.sv_types.specs.Policies.{Rules, rules_within};
ghost use Rattle.sv_types.specs.declared.policy.Export.{Export};

/// Exports have the names that are wanted, each once: the names rise in the order of their bytes, and what some wanted name
/// is, some export's name is, and the other way round.
pub fn law_exports_of_names()
    ensures exported { (kernel : List ℕ) (names : List (List ℕ)) (exports : List Export) → exports_wanted kernel names ≡ Ok exports →
        map (λ e. e.name) exports ≡ each_once names }
    ensures rising { (names : List (List ℕ)) → IsStrictlySortedBy (slice_cmp nat_cmp) (each_once names) }
    ensures same { (names : List (List ℕ)) (test : List ℕ → Bool) → list_any test (each_once names) ≡ list_any test names }
{}

/// A policy that is made is within its limits, where the words are in their ranges, the objects have names of modules and
/// each file of an object is at most 4 GiB.
pub fn law_within_limits()
    ensures { (s : Terms) (digest kernel : List ℕ) (names : List (List ℕ)) (objects : List ModuleFile) (rules : Rules) → terms_within s ≡ true →
        are_module_names (file_names objects) ≡ true → All IsShort objects → policy_after s kernel digest names objects ≡ Ok rules → rules_within rules ≡ true }
{}
