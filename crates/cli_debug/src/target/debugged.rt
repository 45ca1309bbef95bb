// A machine that is debugged.
ghost use Rattle.std.specs.Prelude.{◌≡◌, ◌≤◌, ◌<◌, ◌+◌, [], IfSome};
ghost use Rattle.std.proofs.Props.{props};
ghost use Rattle.sv_types.specs.Limits.{max_events};
ghost use Rattle.spec_reference.specs.Counting.{CountsAtMost};
ghost use Rattle.cli_debug.specs.Upcoming.{most_upcoming};

use crate::target::beginning::{Beginning, Begun};
use crate::target::kept::Kept;
use crate::target::shelf::Shelf;
use crate::target::stepping::{after_row, draw, draw_after, make_row, row_asked, turning};
use crate::target::turns::last_turn_in;
use debug_session::{Place, Target};
use machine::Machine;
use script::{EventRun, Script};
use snapshot_format::TextPage;
use spec_processor::Lines;
use spec_reference::saved_machine::SavedHart;
use std::alloc::{AllocError, Global};
use std::thread::Threads;
use sv_types::{Counts, Note, Protection, Verdict};

/// Of a machine with more bytes of RAM than these no state is kept.
const MOST_KEPT_RAM: usize = 256 << 20;

/// A machine that is debugged: where its run begins, and where it stands.
#[derive(Drop)]
pub struct DebuggedMachine<B: Drop> {
    beginning: B,
    // How many events the run may make.
    events: u64,
    machine: Machine,
    // The events that aren't drawn yet.
    script: Script,
    // The next events, which are equal.
    next: Option<EventRun>,
    // How many more may be drawn.
    left: u64,
    made: u64,
    // All bytes that the console printed.
    console: Vec<u8>,
    // The text that the machine began with.
    text: Vec<TextPage>,
    // The states that are kept.
    shelf: Shelf,
    ghost none: { machine.journal.printed ≡ [] },
    ghost some: { IfSome next (λ row. 0 < row.count) } by { Prim.hlevel props },
    ghost counts: { CountsAtMost made machine.journal.counts },
    ghost few: { made + most_upcoming next left ≤ events },
    ghost limit: { events ≤ max_events },
}

impl<B: Beginning + Drop> DebuggedMachine<B> {
    ghost use Rattle.std.specs.Prelude.{IfOk, OnOk, length};
    ghost use Rattle.sv_types.specs.Schedule.{first_events};
    ghost use Rattle.debug_session.specs.Runs.{Run, after, state};
    ghost use Rattle.cli_debug.specs.Debugged.{StandsAt, StandsIn, run_from};

    /// A machine before the first of at most so many events.
    pub fn new<R: Threads + Sync>(
        rt: &R,
        alloc: Global,
        beginning: B,
        events: u64,
    ) -> Result<DebuggedMachine<B>, AllocError>
        requires { events ≤ max_events }
        ensures { IfOk result (λ t. StandsAt B.kernel B.start B.schedule t
            (run_from (B.kernel beginning) (B.start beginning) (first_events events (B.schedule beginning)))) }
    {
        let Begun { machine, text } = beginning.begin(rt, alloc)?;
        let mut script = beginning.script(alloc)?;
        let (next, left) = draw(&mut script, events);
        Ok(DebuggedMachine {
            beginning,
            events,
            machine,
            script,
            next,
            left,
            made: 0,
            console: Vec::new(alloc),
            text,
            shelf: Shelf::new(),
        })
    }

    // Goes to where so many events are made: to a machine that stands there, with what the console had printed.
    fn go_to(
        &mut self,
        alloc: Global,
        machine: Machine,
        made: u64,
        console: Vec<u8>,
    ) -> Result<(), AllocError>
        requires early { made ≤ self.old.events }
        requires none { machine.journal.printed ≡ [] }
        requires counts { CountsAtMost made machine.journal.counts }
        ensures { OnOk result ((run : Run) → StandsAt B.kernel B.start B.schedule self.old run → made ≤ length run.events →
            StandsIn machine console.items (state (after run made)) → StandsAt B.kernel B.start B.schedule self.new (after run made)) }
    {
        let script = self.beginning.script(alloc)?;
        let (script, next, left) = draw_after(script, self.events, made);
        self.machine = machine;
        self.script = script;
        self.next = next;
        self.left = left;
        self.made = made;
        self.console = console;
        Ok(())
    }
}

impl<B: Beginning + Drop> Target for DebuggedMachine<B> {
    ghost use Rattle.cli_debug.specs.Debugged.{StandsAt};

    ghost stands = { StandsAt B.kernel B.start B.schedule };

    fn most_left(&self) -> u64 {
        match self.next {
            Some(row) => row.count + self.left,
            None => 0,
        }
    }

    fn is_left(&self) -> bool {
        self.next.is_some()
    }

    fn events_made(&self) -> u64 {
        self.made
    }

    fn next_turn(&self) -> Option<u8> {
        turning(self.next)
    }

    fn last_turn(&self, alloc: Global, hart: u8) -> Result<Option<u64>, AllocError> {
        let mut script = self.beginning.script(alloc)?;
        Ok(last_turn_in(&mut script, self.events, hart, self.made))
    }

    fn fetch_place(&self, hart: u8) -> Option<u64> {
        self.machine.fetch_place(hart)
    }

    fn verdict(&self) -> Verdict {
        self.machine.verdict()
    }

    fn hart_count(&self) -> u8 {
        self.machine.hart_count()
    }

    fn hart(&self, hart: u8) -> Option<SavedHart> {
        self.machine.hart(hart)
    }

    fn lines(&self, hart: u8) -> Option<Lines> {
        self.machine.lines(hart)
    }

    fn notes(&self) -> &[Note] {
        self.machine.journal()
    }

    fn counts(&self) -> Counts {
        self.machine.counts()
    }

    fn place_name(&self, alloc: Global, place: Place) -> Result<Vec<u8>, AllocError> {
        let name = self.beginning.place_name(alloc, place)?;
        Ok(name)
    }

    fn protections(&self) -> &[Protection] {
        self.machine.protections()
    }

    fn ram(&self) -> &[u8] {
        self.machine.ram()
    }

    fn console(&self) -> &[u8] {
        &self.console
    }

    fn advance_row(&mut self, most: u64) -> Result<u64, AllocError> {
        let Some(row) = self.next else {
            return Ok(0);
        };
        let asked = row_asked(self.machine.verdict(), row.count, most);
        let (count, told) = make_row(&mut self.machine, row.event, asked, &mut self.console);
        after_row(&mut self.script, &mut self.next, &mut self.left, row, count);
        self.made += count;
        told?;
        Ok(count)
    }

    fn restart<R: Threads + Sync>(&mut self, rt: &R, alloc: Global) -> Result<(), AllocError> {
        let Begun { machine, .. } = self.beginning.begin(rt, alloc)?;
        self.go_to(alloc, machine, 0, Vec::new(alloc))
    }

    #[inline(never)]
    fn keep(&mut self, alloc: Global, last: u64) {
        if self.machine.ram().len() > MOST_KEPT_RAM {
            return;
        }
        if let Ok(kept) = Kept::of(alloc, &self.machine, &self.text, self.made, &self.console) {
            self.shelf.add(kept, last);
        }
    }

    fn rewind<R: Threads + Sync>(
        &mut self,
        rt: &R,
        alloc: Global,
        number: u64,
    ) -> Result<u64, AllocError> {
        let Some(kept) = self.shelf.latest(number.min(self.events)) else {
            self.restart(rt, alloc)?;
            return Ok(0);
        };
        let made = kept.made();
        let machine = kept.machine(rt, alloc, &self.beginning)?;
        let console = kept.console(alloc)?;
        self.go_to(alloc, machine, made, console)?;
        Ok(made)
    }
}
