// A law of the definitions alone. A law takes no argument and does nothing; its clause is the theorem.

ghost use Rattle.std.specs.Prelude.{ℕ, ◌≤◌, length, filter};
ghost use Rattle.spec_processor.specs.Instructions.{has_row, rows};

/// At most one row of the instruction table has a word.
pub fn law_rows()
    ensures { (word : ℕ) → length (filter (has_row word) rows) ≤ 1 }
{}
