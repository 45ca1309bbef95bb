// The lines of a small survey of a kernel without symbols.

use elf64_load::symbols::KernelNames;
use page_measure::fields::WrongField;
use report::findings::{
    Found, Occurrence, RefusedLoad, add_load, add_write, nothing_found, survey_lines,
};
use std::alloc::{AllocError, Global};
use std::process::Abort;
use std::test::Fail;
use sv_types::{ModulePolicy, Name, Note, Policy};

/// A pc, where it writes, the hart and the turn.
static WRITES: [(u64, u64, u8, u64); 4] = [
    (0x8000_1004, 0x8000_2010, 0, 7),
    (0x8000_1008, 0x8000_2000, 1, 9),
    (0x8000_1004, 0x8000_2008, 1, 12),
    (0x8000_1004, 0x8000_2018, 0, 15),
];

static NOTES: [Note; 3] = [
    Note::Demote {
        hart: 0,
        turn: 20,
        pc: 0x8000_3004,
        gpa: 0x8000_3004,
    },
    Note::Denied { gpa: 0x8000_1FF8 },
    Note::Demote {
        hart: 1,
        turn: 21,
        pc: 0x8000_3008,
        gpa: 0x8000_3008,
    },
];

const LINES: &str =
    "write pc 0x0000000080001004 times 3 hart 0 turn 7 gpa 0x0000000080002008 to 0x0000000080002018 by - at -
write pc 0x0000000080001008 times 1 hart 1 turn 9 gpa 0x0000000080002000 to 0x0000000080002000 by - at -
writes 4
fetch gpa 0x0000000080003000 times 2 hart 0 turn 20 pc 0x0000000080003004 by -
load a\\x5cb measure hart 0 turn 18
load a\\x5cb field 0x0000000000000010 holds 0x0000000012300000 due 0x0000000045600000 hart 1 turn 19
loads 2
denied gpa 0x0000000080001000 times 1
";

/// A module whose text isn't the one that was measured, and one with a wrong field.
static LOADS: [RefusedLoad; 2] = [
    RefusedLoad {
        id: 0,
        wrong: None,
        hart: 0,
        turn: 18,
    },
    RefusedLoad {
        id: 0,
        wrong: Some(WrongField {
            offset: 0x10,
            holds: 0x1230_0000,
            due: 0x4560_0000,
        }),
        hart: 1,
        turn: 19,
    },
];

/// A policy of one module.
fn policy<R: Abort>(rt: &R, alloc: Global) -> Result<Policy, AllocError> {
    let name = Name::new("a\\b").expect(rt, "a name");
    let mut modules = Vec::new(alloc);
    modules.push(ModulePolicy {
        name,
        pages: 1,
        measure: [0; 32],
        sites: Vec::new(alloc),
    })?;
    Ok(Policy {
        format: 1,
        harts: 1,
        ram_pages: 64,
        entries: Vec::new(alloc),
        bound: Vec::new(alloc),
        exports: Vec::new(alloc),
        kernel: [0; 32],
        init: None,
        modules,
    })
}

fn found(alloc: Global) -> Result<Found, AllocError> {
    let mut found = nothing_found(alloc);
    for (key, address, hart, turn) in &WRITES {
        let occurrence = Occurrence {
            key: *key,
            address: *address,
            hart: *hart,
            turn: *turn,
        };
        add_write(&mut found.writes, &occurrence)?;
    }
    for load in &LOADS {
        add_load(&mut found.loads, load)?;
    }
    Ok(found)
}

#[test]
fn lines_of_a_survey(rt: HostRuntime) -> Result<(), Fail> {
    let alloc = rt.alloc();
    let policy = policy(&rt, alloc)?;
    let found = found(alloc)?;
    let names = KernelNames {
        tables: None,
        segments: &[],
    };
    let lines = survey_lines(alloc, &names, &policy, &found, &NOTES)?;
    assert!(rt; lines.as_slice() == LINES.as_bytes());
    Ok(())
}
