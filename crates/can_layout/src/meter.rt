//! How often something was made.
ghost use Rattle.std.specs.Prelude.{◌≡◌};
ghost use Rattle.can_layout.specs.Meters.{with_plan, with_picture, with_line};

use std::marker::Model;

/// How often a plan or a diagram was made, and a line decoded. The counts begin at 0 and only rise; they saturate at `u64::MAX`.
#[derive(Drop)]
pub struct Meter {
    plans: u64,
    pictures: u64,
    lines: u64,
}

impl Model for Meter {
    ghost use Rattle.can_layout.specs.Meters as meters;

    ghost Value = { meters.Meter };

    ghost view = { λ a. record { plans = a.plans; pictures = a.pictures; lines = a.lines } };

    ghost invariant = { λ a. meters.IsMeter (record { plans = a.plans; pictures = a.pictures; lines = a.lines }) };
}

impl Meter {
    /// Nothing was made yet.
    pub fn new() -> Meter
        ensures { result ≡ record { plans = 0; pictures = 0; lines = 0 } }
    {
        Meter {
            plans: 0,
            pictures: 0,
            lines: 0,
        }
    }

    /// How many plans were made.
    pub fn plans(&self) -> u64
        ensures { result ≡ self.now.plans }
    {
        self.plans
    }

    /// How many diagrams were made.
    pub fn pictures(&self) -> u64
        ensures { result ≡ self.now.pictures }
    {
        self.pictures
    }

    /// How many lines were decoded.
    pub fn lines(&self) -> u64
        ensures { result ≡ self.now.lines }
    {
        self.lines
    }

    /// Counts a plan.
    pub fn count_plan(&mut self)
        ensures { self.new ≡ with_plan self.old }
    {
        self.plans = self.plans.saturating_add(1);
    }

    /// Counts a diagram.
    pub fn count_picture(&mut self)
        ensures { self.new ≡ with_picture self.old }
    {
        self.pictures = self.pictures.saturating_add(1);
    }

    /// Counts a decoded line.
    pub fn count_line(&mut self)
        ensures { self.new ≡ with_line self.old }
    {
        self.lines = self.lines.saturating_add(1);
    }
}
