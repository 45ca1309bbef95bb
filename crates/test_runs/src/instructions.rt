// Checks of the decoder, the effects and the atomic operations against vectors from outside. `data/alu.txt`, `data/flow.txt`
// and `data/mem.txt` hold what QEMU's RISC-V (7.2, in user mode) made of words that GNU as had assembled; `data/decode.txt`
// and `data/text.txt` hold what GNU objdump (2.40) says of words, and prints of them. The files `worked_` hold rows that were
// worked by hand from the manual. The first line of each file names its columns.

mod checks;
mod line;
mod names;

use std::alloc::Global;
use std::str::Lines;
use std::{fs, io};

/// How many lines agree, and the first that doesn't.
#[derive(Drop)]
struct Tally<'a> {
    agree: usize,
    first: Option<&'a str>,
}

/// A file of vectors, by what its lines tell.
#[derive(Clone, Copy)]
enum Vectors {
    Computations,
    Jumps,
    Accesses,
    Names,
    Texts,
}

fn agrees(alloc: Global, vectors: Vectors, text: &str) -> bool {
    match vectors {
        Vectors::Computations => checks::computes(text) == Some(true),
        Vectors::Jumps => checks::jumps(text) == Some(true),
        Vectors::Accesses => checks::accesses(text) == Some(true),
        Vectors::Names => checks::is_named(alloc, text) == Ok(true),
        Vectors::Texts => checks::is_printed(alloc, text) == Ok(true),
    }
}

fn count_agreeing<'a>(alloc: Global, vectors: Vectors, lines: Lines<'a>) -> Tally<'a> {
    let mut agree = 0usize;
    let mut first = None;
    for text in lines {
        if text.starts_with('#') {
            continue;
        }
        if agrees(alloc, vectors, text) {
            agree = agree.saturating_add(1);
        } else if first.is_none() {
            first = Some(text);
        }
    }
    Tally { agree, first }
}

fn report(rt: &HostRuntime, vectors: Vectors, name: &str) -> io::Result<()> {
    let text = fs::read_to_string(rt, name)?;
    let tally = count_agreeing(rt.alloc(), vectors, text.as_str().lines());
    println!(rt; "{name}: {} lines agree", tally.agree)?;
    if let Some(line) = tally.first {
        println!(rt; "{name}: the first that doesn't: {line}")?;
    }
    Ok(())
}

/// Prints of each file of vectors how many lines agree, and the first that doesn't.
pub fn report_vectors(rt: &HostRuntime) -> io::Result<()> {
    report(rt, Vectors::Computations, "alu.txt")?;
    report(rt, Vectors::Jumps, "flow.txt")?;
    report(rt, Vectors::Accesses, "mem.txt")?;
    report(rt, Vectors::Names, "decode.txt")?;
    report(rt, Vectors::Texts, "text.txt")?;
    report(rt, Vectors::Computations, "worked_alu.txt")?;
    report(rt, Vectors::Jumps, "worked_flow.txt")?;
    report(rt, Vectors::Names, "worked_decode.txt")
}
