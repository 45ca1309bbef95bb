// Attempts on 16 pages of RAM after two trees of tables, with page 0 approved: the exits that they make, by the standard.

ghost use Rattle.std.specs.Prelude.{◌≡◌, ◌*◌, [], length, IfOk};
ghost use Rattle.sv_types.specs.Views.{AreViews, protect, all_free};
ghost use Rattle.sv_types.specs.declared.protection.Protection.TheVariants.{Approved};
ghost use Rattle.gstage_tables.specs.Layout.{table_size};

use crate::modes::{hypervisor_registers, registers_after};
use gstage_tables::Trees;
use hart::{Core, Cpu, Outcome};
use host_mem::HostMem;
use hw_tlb::gstage_cache::Cache;
use spec_processor::{Cause, Exit, ExitCause, Interrupt, Lines, Mode};
use std::alloc::{AllocError, Global};
use std::process::Abort;
use sv_types::Protection;

const PAGES: usize = 16;

// Kernel mode fetches from page 0, which is approved, and user mode from page 4, which isn't.
const KERNEL_PC: u64 = 0x8000_0000;

const USER_PC: u64 = 0x8000_4000;

const VIRTUAL: ExitCause = ExitCause::Exception(Cause::Virtual);

const GUEST_FETCH: ExitCause = ExitCause::Exception(Cause::GuestFetch);

const GUEST_LOAD: ExitCause = ExitCause::Exception(Cause::GuestLoad);

const GUEST_STORE: ExitCause = ExitCause::Exception(Cause::GuestStore);

const CALL_OF_KERNEL: ExitCause = ExitCause::Exception(Cause::GuestCall);

const CALL_OF_USER: ExitCause = ExitCause::Exception(Cause::UserCall);

const BREAKPOINT: ExitCause = ExitCause::Exception(Cause::Breakpoint);

const MISALIGNED_STORE: ExitCause = ExitCause::Exception(Cause::StoreMisaligned);

const MISALIGNED_JUMP: ExitCause = ExitCause::Exception(Cause::InstrMisaligned);

const TIMER: ExitCause = ExitCause::Interrupt(Interrupt::Timer);

// An instruction at a pc in a mode, with its address in x1, satp, and the timer's wire.
type Tried = (Mode, u64, u64, u64, u64, bool);

// The exit that it makes, with its stval, htval and htinst, and whether the cache has the translation of its fetch.
type Row = (Tried, ExitCause, (u64, u64, u32), bool);

const KERNEL: Mode = Mode::Kernel;

const USER: Mode = Mode::User;

// addi
const PLAIN: u64 = 0x0050_0193;

// A root that lies outside RAM.
const NO_ROOT: u64 = 0x8000_0000_0010_0000;

static ROWS: [Row; 18] = [
    // ld, sd, sc.d and amoadd.w where the view has nothing, or where it may not be written
    (
        (KERNEL, KERNEL_PC, 0x0000_B183, 0x200_0000_0000, 0, false),
        GUEST_LOAD,
        (0x200_0000_0000, 0x80_0000_0000, 0x3183),
        true,
    ),
    (
        (KERNEL, KERNEL_PC, 0x0020_B023, 0x8000_0008, 0, false),
        GUEST_STORE,
        (0x8000_0008, 0x2000_0002, 0x0020_3023),
        true,
    ),
    (
        (KERNEL, KERNEL_PC, 0x1820_B1AF, 0x8000_0008, 0, false),
        GUEST_STORE,
        (0x8000_0008, 0x2000_0002, 0x1820_31AF),
        true,
    ),
    (
        (KERNEL, KERNEL_PC, 0x0020_A1AF, 0x1000_0000, 0, false),
        GUEST_STORE,
        (0x1000_0000, 0x400_0000, 0x0020_21AF),
        true,
    ),
    // sret and hlv.b in kernel mode; csrrs of sstatus, wfi and sfence.vma in user mode
    (
        (KERNEL, KERNEL_PC, 0x1020_0073, 0, 0, false),
        VIRTUAL,
        (0x1020_0073, 0, 0),
        true,
    ),
    (
        (KERNEL, KERNEL_PC, 0x6000_C1F3, 0, 0, false),
        VIRTUAL,
        (0x6000_C1F3, 0, 0),
        true,
    ),
    (
        (USER, USER_PC, 0x1000_21F3, 0, 0, false),
        VIRTUAL,
        (0x1000_21F3, 0, 0),
        true,
    ),
    (
        (USER, USER_PC, 0x1050_0073, 0, 0, false),
        VIRTUAL,
        (0x1050_0073, 0, 0),
        true,
    ),
    (
        (USER, USER_PC, 0x1200_0073, 0, 0, false),
        VIRTUAL,
        (0x1200_0073, 0, 0),
        true,
    ),
    // ecall in both modes; ebreak, sd and jalr in user mode
    (
        (KERNEL, KERNEL_PC, 0x0000_0073, 0, 0, false),
        CALL_OF_KERNEL,
        (0, 0, 0),
        true,
    ),
    (
        (USER, USER_PC, 0x0000_0073, 0, 0, false),
        CALL_OF_USER,
        (0, 0, 0),
        true,
    ),
    (
        (USER, USER_PC, 0x0010_0073, 0, 0, false),
        BREAKPOINT,
        (USER_PC, 0, 0),
        true,
    ),
    (
        (USER, USER_PC, 0x0020_B023, 0x8000_0001, 0, false),
        MISALIGNED_STORE,
        (0x8000_0001, 0, 0),
        true,
    ),
    (
        (USER, USER_PC, 0x0000_81E7, 0x8000_0002, 0, false),
        MISALIGNED_JUMP,
        (0x8000_0002, 0, 0),
        true,
    ),
    // An interrupt; a fetch asks the mode's view; a first stage whose root lies outside RAM is an implicit fault.
    ((USER, USER_PC, PLAIN, 0, 0, true), TIMER, (0, 0, 0), false),
    (
        (KERNEL, 0x8000_1000, PLAIN, 0, 0, false),
        GUEST_FETCH,
        (0x8000_1000, 0x2000_0400, 0),
        false,
    ),
    (
        (USER, KERNEL_PC, PLAIN, 0, 0, false),
        GUEST_FETCH,
        (KERNEL_PC, 0x2000_0000, 0),
        false,
    ),
    (
        (USER, USER_PC, PLAIN, 0, NO_ROOT, false),
        GUEST_FETCH,
        (USER_PC, 0x4000_0004, 0x3000),
        false,
    ),
];

// Both views, in which page 0 is approved.
fn draw_views(mem: &mut HostMem)
    requires tables { length mem.old.tables ≡ table_size 16 0 }
    requires ram { length mem.old.ram ≡ 4096 * 16 }
    ensures views { AreViews mem.new.tables 16 [] (protect all_free 0 Approved) }
    ensures ram { length mem.new.ram ≡ 4096 * 16 }
{
    let mut trees = Trees::new(mem, &[]);
    trees.set(mem, 0, Protection::Approved);
}

// RAM in which a word lies where either mode fetches, under both views.
fn region(rt: &impl Abort, alloc: Global, word: u64) -> Result<HostMem, AllocError>
    ensures views { IfOk result (λ m. AreViews m.tables 16 [] (protect all_free 0 Approved)) }
    ensures ram { IfOk result (λ m. length m.ram ≡ 4096 * 16) }
{
    let mut mem = HostMem::new(alloc, Trees::table_bytes(PAGES, 0), PAGES)?;
    for place in [0, 0x4000] {
        assert!(rt; place < 0x1_0000);
        let at = mem.table_bytes() + place;
        assert!(rt; at.is_multiple_of(8) && at + 8 <= mem.table_bytes() + 4096 * mem.ram_pages());
        mem.write(at, 8, word);
    }
    assert!(rt; mem.ram_pages() == PAGES);
    assert!(rt; mem.table_bytes() == Trees::table_bytes(PAGES, 0));
    draw_views(&mut mem);
    Ok(mem)
}

// A core whose x1 is an address, with every interrupt enabled.
fn core_at(pc: u64, address: u64, satp: u64) -> Core {
    let mut core = Core::at_boot();
    core.regs.set(1, address);
    core.csrs = registers_after(&[(0x104, 0x222), (0x180, satp)]);
    core.pc = pc;
    core
}

// What comes of an attempt, and whether the cache then has the translation of its fetch.
fn attempt_once(
    rt: &impl Abort,
    alloc: Global,
    tried: Tried,
) -> Result<(Outcome, bool), AllocError> {
    let (mode, pc, word, address, satp, timer) = tried;
    let mut mem = region(rt, alloc, word)?;
    let regs = hypervisor_registers(mode);
    let mut cache = Cache::new();
    let mut cpu = Cpu::new(alloc)?;
    let lines = Lines {
        time: 0,
        external: false,
        timer,
    };
    let mut core = core_at(pc, address, satp);
    assert!(rt; core.pc.is_multiple_of(4));
    let outcome = cpu.attempt(&mut core, &regs, &mut cache, &mut mem, &lines);
    Ok((outcome, cache.holds(regs.hgatp, pc)))
}

fn check_attempt(
    rt: &impl Abort,
    alloc: Global,
    number: usize,
    row: &Row,
) -> Result<(), AllocError> {
    let (tried, cause, (stval, htval, htinst), is_held) = *row;
    let exit = Exit {
        cause,
        pc: tried.1,
        stval,
        htval,
        htinst,
    };
    let found = attempt_once(rt, alloc, tried)?;
    assert!(rt; found == (Outcome::Exit(exit), is_held), "row {number}");
    Ok(())
}

#[test]
fn exits_of_instructions(rt: HostRuntime) -> Result<(), AllocError> {
    for (number, row) in ROWS.iter().enumerate() {
        check_attempt(&rt, rt.alloc(), number, row)?;
    }
    Ok(())
}
