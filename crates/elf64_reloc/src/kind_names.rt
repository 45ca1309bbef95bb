// The names of relocations, for a person: the table of relocation types of the RISC-V ELF psABI, of which a module may
// have a few.

const FIRST_NAMES: [&str; 36] = [
    "NONE",
    "32",
    "64",
    "RELATIVE",
    "COPY",
    "JUMP_SLOT",
    "TLS_DTPMOD32",
    "TLS_DTPMOD64",
    "TLS_DTPREL32",
    "TLS_DTPREL64",
    "TLS_TPREL32",
    "TLS_TPREL64",
    "TLSDESC",
    "",
    "",
    "",
    "BRANCH",
    "JAL",
    "CALL",
    "CALL_PLT",
    "GOT_HI20",
    "TLS_GOT_HI20",
    "TLS_GD_HI20",
    "PCREL_HI20",
    "PCREL_LO12_I",
    "PCREL_LO12_S",
    "HI20",
    "LO12_I",
    "LO12_S",
    "TPREL_HI20",
    "TPREL_LO12_I",
    "TPREL_LO12_S",
    "TPREL_ADD",
    "ADD8",
    "ADD16",
    "ADD32",
];

const LAST_NAMES: [&str; 30] = [
    "ADD64",
    "SUB8",
    "SUB16",
    "SUB32",
    "SUB64",
    "GOT32_PCREL",
    "",
    "ALIGN",
    "RVC_BRANCH",
    "RVC_JUMP",
    "RVC_LUI",
    "",
    "",
    "",
    "",
    "RELAX",
    "SUB6",
    "SET6",
    "SET8",
    "SET16",
    "SET32",
    "32_PCREL",
    "IRELATIVE",
    "PLT32",
    "SET_ULEB128",
    "SUB_ULEB128",
    "TLSDESC_HI20",
    "TLSDESC_LOAD_LO12",
    "TLSDESC_ADD_LO12",
    "TLSDESC_CALL",
];

/// The name of a relocation's kind without the prefix `R_RISCV_`. None where the psABI names none.
pub(crate) fn kind_name(kind: u32) -> Option<&'static str> {
    let kind = kind as usize;
    let name = if kind < FIRST_NAMES.len() {
        FIRST_NAMES.get(kind)
    } else {
        LAST_NAMES.get(kind - FIRST_NAMES.len())
    };
    match name {
        Some(name) => { if name.is_empty() { None } else { Some(*name) } }
        None => None,
    }
}
