// Words of the table part, written one by one or row by row.

ghost use Rattle.std.specs.Prelude.{◌≡◌, ◌+◌, ◌*◌, ◌/◌, ◌%◌, ◌≤◌, length};
ghost use Rattle.spec_processor.specs.Bytes.{word, write_word, page_size};
ghost use Rattle.gstage_tables.specs.Layout.{root_word, root_words, max_trees};
ghost use Rattle.gstage_tables.specs.Written.{Wrote};
ghost use Rattle.spec_processor.specs.Translation.{entry_size};
ghost use Rattle.spec_processor.specs.Roots.{root_pages};

use crate::words::{ROOT_WORDS, root_word};
use host_mem::{HostMem, Steps};
use spec_processor::{ENTRY_BYTES, ENTRY_WIDTH};
use std::sync::ledger::Ledger;

/// Word `k` of the table part.
pub(crate) fn entry_at(mem: &HostMem, k: u64) -> u64
    requires { entry_size * k + entry_size ≤ length mem.now.tables }
    ensures { result ≡ word mem.now.tables (entry_size * k) entry_size }
{
    let _table_bytes = mem.table_bytes();
    mem.read((ENTRY_BYTES * k) as usize, ENTRY_WIDTH)
}

/// Writes word `k` of the table part.
pub(crate) fn put(mem: &mut HostMem, k: u64, value: u64)
    requires { entry_size * k + entry_size ≤ length mem.old.tables }
    ensures { mem.new ≡ record mem.old { tables = write_word mem.old.tables (entry_size * k) entry_size value } }
{
    let _table_bytes = mem.table_bytes();
    mem.write((ENTRY_BYTES * k) as usize, ENTRY_WIDTH, value);
}

/// `put`, which counts one step.
pub(crate) fn put_counted<L: Ledger>(mem: &mut HostMem, k: u64, value: u64, steps: &mut Steps<L>)
    requires { entry_size * k + entry_size ≤ length mem.old.tables }
    ensures memory { mem.new ≡ record mem.old { tables = write_word mem.old.tables (entry_size * k) entry_size value } }
    ensures step { steps.new ≡ steps.old + 1 }
{
    let _table_bytes = mem.table_bytes();
    mem.set_word((ENTRY_BYTES * k) as usize, value, steps);
}

/// Writes the roots.
pub(crate) fn fill_roots(mem: &mut HostMem, trees: u64)
    requires trees { trees ≤ max_trees }
    requires size { page_size * root_pages * trees ≤ length mem.old.tables }
    ensures ram { mem.new.ram ≡ mem.old.ram }
    ensures words { Wrote mem.old.tables mem.new.tables (root_words * trees) (λ k. k) (λ k. root_word trees (k / root_words) (k % root_words)) }
{
    for k in 0..ROOT_WORDS * trees {
        put(mem, k, root_word(trees, k / ROOT_WORDS, k % ROOT_WORDS));
    }
}
