// The orders of a case.

use crate::calls::{count, print, print_lines, print_pieces, print_remark, print_writes};
use crate::case::Case;
use crate::files::make;
use crate::live::{print_held, print_live};
use crate::memory::Outside;
use crate::values::{first_word, number};
use std::io;
use std::sync::Wait;
use std::thread::Threads;

/// Follows the orders of cases, a line each, over the parts that they use.
pub fn follow_cases<R: Threads + Wait + Sync + AllocGlobal + Print>(
    rt: &R,
    parts: &str,
    cases: &str,
) -> io::Result<()> {
    let mut case = Case::new(rt.alloc());
    for line in cases.lines() {
        follow(rt, parts, &mut case, line)?;
    }
    Ok(())
}

// Follows an order. One to use a part is to follow the orders of that part.
fn follow<R: Threads + Wait + Sync + AllocGlobal + Print>(
    rt: &R,
    parts: &str,
    case: &mut Case,
    line: &str,
) -> io::Result<()> {
    let (order, words) = first_word(line);
    if order == "use" {
        use_part(rt, parts, case, words)
    } else {
        obey(rt, case, order, words)
    }
}

// Follows the orders after a part's name, up to the next part.
fn use_part<R: Threads + Wait + Sync + AllocGlobal + Print>(
    rt: &R,
    parts: &str,
    case: &mut Case,
    name: &str,
) -> io::Result<()> {
    let mut is_within = false;
    for line in parts.lines() {
        let (order, words) = first_word(line);
        if order == "part" {
            is_within = words == name;
        } else if is_within {
            obey(rt, case, order, words)?;
        }
    }
    Ok(())
}

fn obey<R: Threads + Wait + Sync + AllocGlobal + Print>(
    rt: &R,
    case: &mut Case,
    order: &str,
    words: &str,
) -> io::Result<()> {
    match order {
        "" | "#" => Ok(()),
        "case" => begin(rt, case, words),
        "outside" => {
            set_outside(&mut case.outside, words);
            Ok(())
        }
        "call" => print(rt, case, words),
        "count" => count(rt, case, words),
        "saved" => print_lines(rt, &case.saved),
        "pieces" => print_pieces(rt, case, words),
        "remark" => print_remark(rt, case, words),
        "live" => print_live(rt, case, words),
        "held" => print_held(rt, case, words),
        "writes" => print_writes(rt, case, words),
        _ => make_or_tell(rt, case, order, words),
    }
}

fn begin<R: Print>(rt: &R, case: &mut Case, what: &str) -> io::Result<()> {
    case.clear();
    println!(rt; "== {what}")
}

fn make_or_tell<R: AllocGlobal + Print>(
    rt: &R,
    case: &mut Case,
    order: &str,
    words: &str,
) -> io::Result<()> {
    if make(rt.alloc(), case, order, words)? {
        Ok(())
    } else {
        println!(rt; "no order {order} {words}")
    }
}

// The number of the read, the write or the save that fails, that nothing can be saved, or how many bytes a write takes.
fn set_outside(outside: &mut Outside, words: &str) {
    let (what, value) = first_word(words);
    let value = number(value);
    match what {
        "read" => outside.failing_read = value,
        "write" => outside.failing_write = value,
        "save" => outside.failing_save = value,
        "bar" => outside.is_barred = true,
        _ => outside.piece = value as usize,
    }
}
