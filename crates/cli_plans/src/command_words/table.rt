// The table of the program's commands: of each its name, its words in their order, and what a person is told of it.
ghost use Rattle.std.specs.Prelude.{◌≡◌, map};
ghost use Rattle.cli_plans.specs.Commands.{name_of};
ghost use Rattle.cli_plans.specs.Parsing.{want_of, wants_of};

use crate::command_words::command::DiskKind;

/// A command.
#[derive(Clone, Copy)]
pub enum CommandName {
    Flat,
    Generated,
    /// With the block device that its machine has.
    Run(DiskKind),
    Survey,
    Debug,
    /// With the block device that its machine has.
    Live(DiskKind),
    /// With the block device that its machine has.
    Snap(DiskKind),
    Sweep,
    Shrink,
    Resume,
    Show,
    Measure,
    Convert,
}

/// A command by its name, and what it does in words.
#[derive(Clone, Copy)]
pub struct CommandRow {
    pub name: &'static str,
    pub command: CommandName,
    pub about: &'static str,
}

/// What a command has under a name.
#[derive(Clone, Copy)]
pub enum Argument<'a> {
    /// One word.
    One(&'a str),
    /// One word, or none.
    Maybe(&'a str),
    /// Any number of words, none too.
    Any(&'a str),
}

// The names, each of which stands here once.
const FLAT_NAME: &str = "flat";

const GENERATED_NAME: &str = "gen";

const RUN_NAME: &str = "run";

const VIRTIO_RUN_NAME: &str = "vrun";

const SURVEY_NAME: &str = "survey";

const DEBUG_NAME: &str = "debug";

const LIVE_NAME: &str = "live";

const VIRTIO_LIVE_NAME: &str = "vlive";

const SNAP_NAME: &str = "snap";

const VIRTIO_SNAP_NAME: &str = "vsnap";

const SWEEP_NAME: &str = "sweep";

const SHRINK_NAME: &str = "shrink";

const RESUME_NAME: &str = "resume";

const SHOW_NAME: &str = "show";

const MEASURE_NAME: &str = "measure";

const CONVERT_NAME: &str = "convert";

/// All commands, in the order in which they are explained.
pub static COMMANDS: [CommandRow; 16] = [
    CommandRow {
        name: MEASURE_NAME,
        command: CommandName::Measure,
        about: "makes the policy of a kernel and its modules, and saves it as OUT",
    },
    CommandRow {
        name: CONVERT_NAME,
        command: CommandName::Convert,
        about: "binds each entry of the policy IN to its place in the kernel, and saves the new policy as\n      OUT",
    },
    CommandRow {
        name: RUN_NAME,
        command: CommandName::Run(DiskKind::Block),
        about: "runs a kernel under a policy",
    },
    CommandRow {
        name: VIRTIO_RUN_NAME,
        command: CommandName::Run(DiskKind::Virtio),
        about: "the same with a virtio disk",
    },
    CommandRow {
        name: SURVEY_NAME,
        command: CommandName::Survey,
        about: "runs a kernel past each write that breaks its policy, and tells what breaks it, and where",
    },
    CommandRow {
        name: DEBUG_NAME,
        command: CommandName::Debug,
        about: "runs a kernel for gdb, which asks over standard input: target remote | secvisor debug ...",
    },
    CommandRow {
        name: LIVE_NAME,
        command: CommandName::Live(DiskKind::Block),
        about: "runs a kernel with the keys of standard input, up to its end, and saves its events as\n      OUT, a script for run",
    },
    CommandRow {
        name: VIRTIO_LIVE_NAME,
        command: CommandName::Live(DiskKind::Virtio),
        about: "the same with a virtio disk; OUT is a script for vrun",
    },
    CommandRow {
        name: SNAP_NAME,
        command: CommandName::Snap(DiskKind::Block),
        about: "runs a kernel, prints its console alone, and saves the machine as OUT, a snapshot",
    },
    CommandRow {
        name: VIRTIO_SNAP_NAME,
        command: CommandName::Snap(DiskKind::Virtio),
        about: "the same with a virtio disk",
    },
    CommandRow {
        name: RESUME_NAME,
        command: CommandName::Resume,
        about: "goes on from a snapshot with the same script, up to EVENTS of the whole run",
    },
    CommandRow {
        name: SWEEP_NAME,
        command: CommandName::Sweep,
        about: "runs a kernel once for each of COUNT drawn orders, from FIRST on, and counts how the runs\n      end",
    },
    CommandRow {
        name: SHRINK_NAME,
        command: CommandName::Shrink,
        about: "makes the events of a run that stops few, and saves them as OUT, a script under which it\n      stops so too",
    },
    CommandRow {
        name: FLAT_NAME,
        command: CommandName::Flat,
        about: "runs 1 to 16 plain pages, all of them approved",
    },
    CommandRow {
        name: SHOW_NAME,
        command: CommandName::Show,
        about: "prints what a snapshot says of its machine: harts, pages, modules, devices, journal; with\n      the kernel, the names of its code too",
    },
    CommandRow {
        name: GENERATED_NAME,
        command: CommandName::Generated,
        about: "runs a guest that is made for N calls of its user",
    },
];

/// A word by its name, and what it may be, for a person.
#[derive(Clone, Copy)]
pub struct WordRow {
    pub name: &'static str,
    pub permitted: &'static str,
}

/// The names of all commands' words.
pub static WORDS: [WordRow; 21] = [
    WordRow {
        name: "OUT",
        permitted: "the name that a file is saved under",
    },
    WordRow {
        name: "SAVE",
        permitted: "the name that the disk is saved under, or none",
    },
    WordRow {
        name: "KERNEL",
        permitted: "an ELF image for RV64IMA, linked, at most 64 MiB",
    },
    WordRow {
        name: "IMAGE",
        permitted: "an ELF image for RV64IMA, linked, at most 64 MiB",
    },
    WordRow {
        name: "POLICY",
        permitted: "what measure or convert made, or a text like it",
    },
    WordRow {
        name: "IN",
        permitted: "what measure made, or a text like it",
    },
    WordRow {
        name: "DISK",
        permitted: "the disk's bytes, whole sectors of 512, or none for an empty disk",
    },
    WordRow {
        name: "SCRIPT",
        permitted: "a script of events, none for the harts in turn, auto:K or bursts:K for a drawn order",
    },
    WordRow {
        name: "SCHEDULE",
        permitted: "auto or bursts: how a number draws the order of a run",
    },
    WordRow {
        name: "FIRST",
        permitted: "the first number, 0 to 18446744073709551615",
    },
    WordRow {
        name: "COUNT",
        permitted: "how many numbers, 1 to 1000000, the last at most 18446744073709551615",
    },
    WordRow {
        name: "EVENTS",
        permitted: "the most events, 0 to 4294967296; with live and vlive to 4294950912, besides the keys",
    },
    WordRow {
        name: "SNAPSHOT",
        permitted: "what snap or vsnap saved",
    },
    WordRow {
        name: "RAM",
        permitted: "pages of 4096 bytes, 16 to 262144",
    },
    WordRow {
        name: "HARTS",
        permitted: "1 to 4",
    },
    WordRow {
        name: "ENTRIES",
        permitted: "1 to 64 addresses at which user mode may enter the kernel, harts start, or the kernel boots, as 0x80000000,0x80000100",
    },
    WordRow {
        name: "INIT",
        permitted: "pages that the kernel may give back, as 0x80001000:2, or none",
    },
    WordRow {
        name: "MODULES",
        permitted: "object files, none or up to 64, none twice, each name 1 to 64 bytes long",
    },
    WordRow {
        name: "FILE",
        permitted: "1 to 16 plain pages",
    },
    WordRow {
        name: "MEASURE",
        permitted: "the pages' digest, 64 hexadecimal digits",
    },
    WordRow {
        name: "N",
        permitted: "1 to 1000000",
    },
];

static FLAT: [Argument<'static>; 3] = [
    Argument::One("FILE"),
    Argument::One("MEASURE"),
    Argument::One("EVENTS"),
];

static GENERATED: [Argument<'static>; 1] = [Argument::One("N")];

static RUN: [Argument<'static>; 6] = [
    Argument::One("IMAGE"),
    Argument::One("POLICY"),
    Argument::One("DISK"),
    Argument::One("SCRIPT"),
    Argument::One("EVENTS"),
    Argument::One("SAVE"),
];

static SURVEY: [Argument<'static>; 5] = [
    Argument::One("IMAGE"),
    Argument::One("POLICY"),
    Argument::One("DISK"),
    Argument::One("SCRIPT"),
    Argument::One("EVENTS"),
];

static LIVE: [Argument<'static>; 5] = [
    Argument::One("IMAGE"),
    Argument::One("POLICY"),
    Argument::One("DISK"),
    Argument::One("EVENTS"),
    Argument::One("OUT"),
];

static SNAP: [Argument<'static>; 6] = [
    Argument::One("IMAGE"),
    Argument::One("POLICY"),
    Argument::One("DISK"),
    Argument::One("SCRIPT"),
    Argument::One("EVENTS"),
    Argument::One("OUT"),
];

static SWEEP: [Argument<'static>; 7] = [
    Argument::One("IMAGE"),
    Argument::One("POLICY"),
    Argument::One("DISK"),
    Argument::One("SCHEDULE"),
    Argument::One("FIRST"),
    Argument::One("COUNT"),
    Argument::One("EVENTS"),
];

static RESUME: [Argument<'static>; 5] = [
    Argument::One("SNAPSHOT"),
    Argument::One("POLICY"),
    Argument::One("SCRIPT"),
    Argument::One("EVENTS"),
    Argument::One("SAVE"),
];

static SHOW: [Argument<'static>; 2] = [Argument::One("SNAPSHOT"), Argument::Maybe("KERNEL")];

static MEASURE: [Argument<'static>; 7] = [
    Argument::One("OUT"),
    Argument::One("KERNEL"),
    Argument::One("RAM"),
    Argument::One("HARTS"),
    Argument::One("ENTRIES"),
    Argument::One("INIT"),
    Argument::Any("MODULES"),
];

static CONVERT: [Argument<'static>; 3] = [
    Argument::One("KERNEL"),
    Argument::One("IN"),
    Argument::One("OUT"),
];

/// What the command wants after its name, in order.
pub fn arguments_of(command: CommandName) -> &'static [Argument<'static>]
    ensures { map want_of result.now ≡ wants_of command }
{
    match command {
        CommandName::Flat => &FLAT,
        CommandName::Generated => &GENERATED,
        CommandName::Run(_) => &RUN,
        CommandName::Survey => &SURVEY,
        CommandName::Debug => &SURVEY,
        CommandName::Live(_) => &LIVE,
        CommandName::Snap(_) => &SNAP,
        CommandName::Sweep => &SWEEP,
        CommandName::Shrink => &SNAP,
        CommandName::Resume => &RESUME,
        CommandName::Show => &SHOW,
        CommandName::Measure => &MEASURE,
        CommandName::Convert => &CONVERT,
    }
}

/// The command of this name.
pub fn command_of_name(name: &str) -> Option<CommandName>
    ensures { result ≡ name_of name.now }
{
    match name {
        FLAT_NAME => Some(CommandName::Flat),
        GENERATED_NAME => Some(CommandName::Generated),
        RUN_NAME => Some(CommandName::Run(DiskKind::Block)),
        VIRTIO_RUN_NAME => Some(CommandName::Run(DiskKind::Virtio)),
        SURVEY_NAME => Some(CommandName::Survey),
        DEBUG_NAME => Some(CommandName::Debug),
        LIVE_NAME => Some(CommandName::Live(DiskKind::Block)),
        VIRTIO_LIVE_NAME => Some(CommandName::Live(DiskKind::Virtio)),
        SNAP_NAME => Some(CommandName::Snap(DiskKind::Block)),
        VIRTIO_SNAP_NAME => Some(CommandName::Snap(DiskKind::Virtio)),
        RESUME_NAME => Some(CommandName::Resume),
        SWEEP_NAME => Some(CommandName::Sweep),
        SHRINK_NAME => Some(CommandName::Shrink),
        SHOW_NAME => Some(CommandName::Show),
        MEASURE_NAME => Some(CommandName::Measure),
        CONVERT_NAME => Some(CommandName::Convert),
        _ => None,
    }
}
