//! The program's one call, `secvisor`: words, files and a sink in, a status out. What a command is made of is given on, for
//! commands that stand above.
#![tactic(auto)]

mod answer;
mod converting;
mod flat;
mod generated;
mod image_run;
mod laws;
mod making;
mod parts;
mod ready;
mod save;

pub use answer::{Bench, finish, refuse, run_on_bench, secvisor};
pub use flat::MAX_FLAT_BYTES;
pub use host_io::{Trouble, status_of_end};
pub use image_run::{
    MAX_DISK_BYTES, MAX_IMAGE_BYTES, MAX_POLICY_BYTES, MAX_SCRIPT_BYTES, boot_file, boot_with,
    judge_kernel, judge_policy, judge_script, prepare_measured, prepare_run, read_disk,
    read_policy, read_script,
};
pub use laws::{law_converted, law_due, law_make_ends, law_run_ends};
pub use making::MAX_OBJECT_BYTES;
pub use parts::read_part;
pub use ready::{Made, MeasuredRun, PreparedRun, Ready, Stop};
pub use save::try_place;
pub use sv_types::Status;
