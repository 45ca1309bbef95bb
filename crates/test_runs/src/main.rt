//! Instructions against results of other machines, then whole runs of the program over files and a sink in memory.
//! First it prints of each file of vectors how many lines the decoder and the effects agree with (`instructions`). Then it runs
//! the stored guests, and prints of each its name, the status of its run and all that the run prints; it says of each stored
//! policy whether it is what `measure` makes of its image. Then it follows the orders of the cases, a line each, and prints what
//! each call leaves behind. `data/parts.cases` says what the orders are. At last it makes a call of each command over the files
//! that lie in its folder, standard input and standard output.
#![tactic(auto)]

mod instructions;
mod real;

use instructions::report_vectors;
use real::call_real;
use std::rt::Files;
use std::sync::Wait;
use std::thread::Threads;
use std::{fs, io};
use test_cases::{
    ENDLESS, compare_policies, follow_cases, refuse_endless, run_guests, run_sessions,
};

// The files of cases, in the order in which they run.
static LISTS: [&str; 10] = [
    "flat.cases",
    "kernels.cases",
    "generated.cases",
    "images.cases",
    "modules.cases",
    "texts.cases",
    "policies.cases",
    "snapshots.cases",
    "remarks.cases",
    "live.cases",
];

fn main(rt: HostRuntime) -> io::Result<()> {
    report_vectors(&rt)?;
    run_guests(&rt, "runs.txt")?;
    compare_policies(&rt, "policies.txt")?;
    run_sessions(&rt, "sessions.txt")?;
    let parts = fs::read_to_string(&rt, "parts.cases")?;
    for list in &LISTS {
        run_list(&rt, parts.as_str(), list)?;
    }
    println!(rt; "== files without end")?;
    for words in &ENDLESS {
        refuse_endless(&rt, rt.clone()?, words)?;
    }
    let lines = fs::read_to_string(&rt, "real.txt")?;
    for words in lines.as_str().lines() {
        if !words.starts_with('#') {
            call_real(&rt, &rt, words)?;
        }
    }
    Ok(())
}

fn run_list<R: Threads + Wait + Sync + Files + AllocGlobal + Print>(
    rt: &R,
    parts: &str,
    name: &str,
) -> io::Result<()> {
    let text = fs::read_to_string(rt, name)?;
    follow_cases(rt, parts, text.as_str())
}
