// The files of the operating system, and standard output. They tell nothing of content.

mod escaped;
mod files;
mod output;
mod progress;
mod saving;

pub use escaped::Escaped;
pub use files::RealFiles;
pub use output::StdSink;
