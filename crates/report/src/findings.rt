// What a survey found: counted by pc or by page the writes to protected pages that it passed over, the pages at which kernel mode
// was left, and those that devices were kept from; the loads that were refused; and the lines that say so.

mod findings;
mod found;
mod lines;
mod loads;
mod noted;

pub use findings::{Finding, MAX_FINDINGS, Occurrence, Writes, add_write};
pub use found::{Found, nothing_found};
pub use lines::survey_lines;
pub use loads::{Loads, RefusedLoad, add_load};
pub use noted::NotesFound;
