// The relocated fields of a module's text, piece by piece: clearing them before the text is measured, and judging whether
// each has the value that the module's bases ask for.

mod field;
mod laws;
mod pieces;
mod value;
mod wrong;

pub use laws::{law_fields_right, law_mask};
pub use pieces::{fields_right, mask};
pub use wrong::{WrongField, first_wrong};
