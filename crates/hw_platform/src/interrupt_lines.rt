// The wires of a hart.

ghost use Rattle.std.specs.Prelude.{◌<◌};
ghost use Rattle.sv_types.specs.Limits.{max_harts};
ghost use Rattle.spec_reference.specs.Devices.{lines_at};

use hart::InterruptLines;
use hw_devices::Devices;
use spec_processor::Lines;

/// The wires of a hart, behind the devices.
#[derive(Clone, Copy, Drop)]
pub(crate) struct HartInterruptLines<'a> {
    pub(crate) devices: &'a Devices,
    pub(crate) hart: u8,
    ghost is_hart: { hart < max_harts },
}

impl InterruptLines for HartInterruptLines<'_> {
    ghost seen = { λ interrupt_lines. lines_at interrupt_lines.devices.now interrupt_lines.hart };

    fn lines(&self) -> Lines {
        self.devices.lines(self.hart)
    }
}
