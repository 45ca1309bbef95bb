// SecVisor's answers to calls from kernel mode: what each is answered, but for those about modules, and what an answer does to
// harts, devices and journal.

mod calls;
mod decisions;
mod laws;
mod masks;
mod places;

pub use calls::give;
pub use decisions::answer_of;
pub use laws::law_starts;
