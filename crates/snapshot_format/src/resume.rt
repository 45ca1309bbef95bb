// Whether a machine can go on from a snapshot under a policy. What protects pages is made anew and never believed: in `specs/`
// stand the judgements and the state in which the machine goes on.

mod judgement;
mod modules;
mod pages;
mod policy;
mod refusal;
mod text;

pub use judgement::resume_refusal;
pub use modules::has_modules;
pub use pages::is_guarded_right;
pub use policy::is_of_policy;
pub use refusal::ResumeRefusal;
pub use text::{has_text, is_retired, joins};
