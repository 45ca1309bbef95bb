// The integer registers.

use spec_processor::REGISTERS;
use std::marker::Model;

/// The 32 integer registers, of which register 0 is 0. Contracts see the list of their values.
#[derive(Drop)]
pub struct Regs {
    values: [u64; REGISTERS],
}

impl Model for Regs {
    ghost use Rattle.std.specs.Prelude.{◌≡◌, ℕ, List, slice_index};

    ghost Value = { List ℕ };

    ghost view = { λ regs. regs.values };

    ghost invariant = { λ regs. slice_index regs.values 0 ≡ 0 };
}

impl Regs {
    ghost use Rattle.std.specs.Prelude.{◌≡◌, ◌<◌, length, replicate, slice_index};
    ghost use Rattle.spec_processor.specs.Effects.{register, set_register};
    ghost use Rattle.spec_processor.specs.IntegerRegisters.{register_count};

    /// All registers are 0.
    pub fn new() -> Self
        ensures { result ≡ replicate register_count 0 }
    {
        Regs {
            values: [0; REGISTERS],
        }
    }

    /// Registers with these values, of which the first is 0.
    pub fn from_values(values: [u64; REGISTERS]) -> Self
        requires zero { slice_index values 0 ≡ 0 }
        ensures { result ≡ values }
    {
        Regs { values }
    }

    /// The value of a register.
    pub fn get(&self, n: u8) -> u64
        requires { n < register_count }
        ensures value { result ≡ register self.now n }
        ensures zero { n ≡ 0 → result ≡ 0 }
        ensures count { length self.now ≡ register_count }
    {
        self.values[usize::from(n)]
    }

    /// The values of all registers.
    pub fn values(&self) -> [u64; REGISTERS]
        ensures { result ≡ self.now }
    {
        self.values
    }

    /// Sets a register. Register 0 stays 0.
    pub fn set(&mut self, n: u8, value: u64)
        requires { n < register_count }
        ensures { self.new ≡ set_register self.old n value }
    {
        if n != 0 {
            self.values[usize::from(n)] = value;
        }
    }
}
