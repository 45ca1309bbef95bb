// Writing whole pieces.
ghost use Rattle.std.specs.Prelude.{◌≡◌, ◌<◌, ◌-◌, OnOk, OnErr};
ghost use Rattle.host_io.specs.Outside.{after_taking, BreaksOff, MayWrite};

use crate::{Failed, Sink};

/// Writes all bytes. After a write that failed nothing more is written.
pub fn write_all<O: Sink>(out: &mut O, bytes: &[u8]) -> Result<(), Failed>
    requires sink { MayWrite (O.state out.old) }
    ensures whole { OnOk result (O.state out.new ≡ after_taking (O.state out.old) bytes.now) }
    ensures failed { OnErr result (BreaksOff (O.state out.old) (O.state out.new) bytes.now) }
{
    let mut rest = bytes;
    while !rest.is_empty() {
        let count = out.write(rest)?;
        rest = &rest[count..];
    }
    Ok(())
}
