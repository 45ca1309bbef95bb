//! The limits of a policy's values.
#![tactic(auto)]

mod limits;
mod names;
mod places;
mod policy_fault;

pub use limits::{
    MAX_EXPORTS, MAX_MODULE_PAGES, MAX_MODULE_SITES, MAX_MODULES, MAX_RAM_PAGES, MAX_SITES,
    MIN_RAM_PAGES, within,
};
pub use names::is_module;
pub use places::{
    bound_fits, field_end, is_after, is_aligned, is_anchor, is_low_part, is_place, site_size,
};
pub use policy_fault::PolicyFault;
pub use sv_types::{BOUND_FORMAT, MAX_ENTRIES, MAX_HARTS, PLAIN_FORMAT};
