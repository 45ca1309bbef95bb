// Laws of the agreement between caches and tables. A law takes no argument and does nothing; its clauses are the theorem.

ghost use Rattle.std.specs.Prelude.{◌≡◌, ℕ, ◌≤◌, length};
ghost use Rattle.spec_processor.specs.Regions.{Region, write_host};

/// A write to RAM leaves the tables as they are, and with them what every cache agrees with.
pub fn law_write_keeps_tables()
    ensures { (r : Region) (place width value : ℕ) → length r.tables ≤ place → (write_host r place width value).tables ≡ r.tables }
{}
