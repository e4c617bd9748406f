ghost use Rattle.std.specs.Prelude.{◌≡◌};

use std::marker::Model;

/// The state of one sequence: the value that its tasks find and leave. It is moved, never copied, so
/// that one holder at a time can change it.
#[derive(Debug, Drop)]
pub struct Cell {
    value: u64,
}

impl Model for Cell {
    ghost use Rattle.std.specs.Prelude.{ℕ};

    ghost Value = { ℕ };

    ghost view = { λ cell. cell.value };
}

impl Cell {
    /// A cell with the value 0.
    pub fn new() -> Cell
        ensures { result ≡ 0 }
    {
        Cell { value: 0 }
    }

    /// What the cell holds.
    pub fn value(&self) -> u64
        ensures { result ≡ self.now }
    {
        self.value
    }

    /// Puts another value in place of the one that the cell holds.
    pub fn set(&mut self, value: u64)
        ensures { self.new ≡ value }
    {
        self.value = value;
    }
}
