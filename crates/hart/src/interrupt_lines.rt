// The wires that a hart sees.

ghost use Rattle.std.specs.Prelude.{◌≡◌};
ghost use Rattle.spec_processor.specs.declared.lines.Lines.{Lines as Levels};

use spec_processor::Lines;

/// The wires that a hart sees, read only where an attempt goes by them.
pub trait InterruptLines {
    // the level of each
    ghost seen: { Self → Levels };

    /// The wires as they are.
    fn lines(&self) -> Lines
        ensures { result ≡ seen self.now };
}

impl InterruptLines for Lines {
    ghost seen = { λ lines. lines };

    fn lines(&self) -> Lines {
        *self
    }
}
