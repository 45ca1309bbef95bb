// The bytes of the verdict: a kind, and the fields of each.

ghost use Rattle.std.specs.Prelude.{◌≡◌, ℕ, ◌++◌, true, OnOk};
ghost use Rattle.snapshot_format.specs.Forms.{encode_number};
ghost use Rattle.snapshot_format.specs.JournalForms.{entry_kind, verdict, write_kind};
ghost use Rattle.snapshot_format.specs.Typed.{are_words, verdict_numbers};

use crate::verdict_kind::{RUNNING, SHUTDOWN, STOPPED_ENTRY, STOPPED_WRITE};
use crate::writer::values::write_number;
use std::alloc::AllocError;
use sv_types::{Rule, Verdict};

#[tactic(auto, unfolding(crate::proofs::WrittenForms::verdict_forms))]
pub(crate) fn write_verdict(out: &mut Vec<u8>, v: Verdict) -> Result<(), AllocError>
    ensures encoded { (harts : ℕ) → OnOk result (out.new.items ≡ out.old.items ++ (verdict harts).encode v) }
    ensures typed { OnOk result (are_words (verdict_numbers v) ≡ true) }
{
    match v {
        Verdict::Running => write_number(out, RUNNING),
        Verdict::Shutdown => write_number(out, SHUTDOWN),
        Verdict::Stopped {
            rule: Rule::Entry { target },
            hart,
            turn,
        } => write_stopped_entry(out, target, hart, turn),
        Verdict::Stopped {
            rule: Rule::Write { pc, gpa },
            hart,
            turn,
        } => write_stopped_write(out, pc, gpa, hart, turn),
    }
}

fn write_stopped_entry(
    out: &mut Vec<u8>,
    target: u64,
    hart: u8,
    turn: u64,
) -> Result<(), AllocError>
    ensures { OnOk result (out.new.items ≡
        out.old.items ++ (encode_number entry_kind ++ (encode_number target ++ (encode_number hart ++ encode_number turn)))) }
{
    write_number(out, STOPPED_ENTRY)?;
    write_number(out, target)?;
    write_number(out, u64::from(hart))?;
    write_number(out, turn)
}

fn write_stopped_write(
    out: &mut Vec<u8>,
    pc: u64,
    gpa: u64,
    hart: u8,
    turn: u64,
) -> Result<(), AllocError>
    ensures { OnOk result (out.new.items ≡
        out.old.items ++ (encode_number write_kind ++ (encode_number pc ++ (encode_number gpa ++ (encode_number hart ++ encode_number turn))))) }
{
    write_number(out, STOPPED_WRITE)?;
    write_number(out, pc)?;
    write_number(out, gpa)?;
    write_number(out, u64::from(hart))?;
    write_number(out, turn)
}
