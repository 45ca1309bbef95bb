//! The policy of a kernel and its modules: the words that ask for it, and what its digests, its exports and the relocated
//! fields of its modules are, by the files of the kernel and of the modules; and entries that are bound to their places in a
//! kernel: the policy of format 2 that one of format 1 becomes.
#![tactic(auto)]

mod bind_fault;
mod binding_laws;
mod bound_entries;
mod bound_policy;
mod entries;
mod exports;
mod init;
mod kernel;
mod laws;
mod module_names;
mod modules;
mod names;
mod object_file;
mod places;
mod policy;
mod refusal;

pub use bind_fault::{BindFault, BindRefusal, ConvertFault};
pub use binding_laws::{law_bound_in_text, law_bound_within_limits};
pub use bound_policy::bind;
pub use entries::{are_entries, entries_of};
pub use exports::wanted_exports;
pub use init::span_of;
pub use kernel::{kernel_digest, text_digest};
pub use laws::{law_exports_of_names, law_within_limits};
pub use module_names::are_module_names;
pub use modules::made_modules;
pub use names::want_names;
pub use object_file::ObjectFile;
pub use policy::{MeasuredKernel, Settings, policy_after};
pub use refusal::{MakingFault, MakingRefusal};
