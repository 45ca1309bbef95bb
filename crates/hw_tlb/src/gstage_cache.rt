// A cache of G-stage translations, tagged by the `hgatp` value under which they were walked.

mod cache;
mod laws;

pub use cache::Cache;
pub use laws::law_write_keeps_tables;
pub use spec_processor::GuestFault;
