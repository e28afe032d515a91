//! Fuel: a bound on work that is counted down. It only falls.

ghost use Rattle.std.specs.Prelude.{◌≡◌, ◌+◌, ◌<◌};

use std::marker::Model;

/// Units of work that may still be spent. Contracts see it as their number.
#[derive(Debug, Drop)]
pub struct Fuel {
    units: u64,
}

impl Model for Fuel {
    ghost use Rattle.std.specs.Prelude.{ℕ};

    ghost Value = { ℕ };

    ghost view = { λ f. f.units };
}

impl Fuel {
    /// Fuel of that many units.
    pub fn new(units: u64) -> Fuel
        ensures { result ≡ units }
    {
        Fuel { units }
    }

    /// The number of units that are left.
    pub fn left(&self) -> u64
        ensures { result ≡ self.now }
    {
        self.units
    }

    /// Spends one unit.
    pub fn spend(&mut self)
        requires { 0 < self.old }
        ensures { self.old ≡ self.new + 1 }
    {
        self.units -= 1;
    }
}
