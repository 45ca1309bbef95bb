//! Translations through both stages that are kept with the table words that they read, and are right while these stand; and
//! what harts keep of walks, which is usable while it agrees with the tables, and is emptied where protections change.
#![tactic(auto)]

mod caches;
mod entries;
pub mod gstage_cache;
mod line;
mod lines;
mod tag;
mod walk;

pub use caches::{HartCaches, fence};
pub use entries::{Entries, Entry};
pub use line::Line;
pub use lines::Reach;
