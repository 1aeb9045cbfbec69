// What a sheet hands out, each by a function of its own. Each contract rules out that a value is another's.
ghost use Rattle.std.specs.Prelude.{◌≡◌};
ghost use Rattle.sheet.specs.Sheet.{scans_in};

use crate::{Mean, Occurrence, Sheet, SheetValues};
use modes::Mode;

impl Sheet {
    // All of it, for a host that keeps the sheet.
    pub fn values(self) -> SheetValues
        ensures { result ≡ self.values }
    {
        self.values
    }

    pub fn scans(self) -> u32
        ensures { result ≡ self.values.scans }
    {
        self.values.scans
    }

    #[tactic(auto, unfolding(crate::specs::Sheet::scans_in))]
    pub fn scans_in(self, mode: Mode) -> u32
        ensures { result ≡ scans_in self.values mode }
    {
        self.values.modes[crate::place(mode)]
    }

    pub fn greatest(self) -> Option<Occurrence>
        ensures { result ≡ self.values.greatest }
    {
        self.values.greatest
    }

    pub fn least(self) -> Option<Occurrence>
        ensures { result ≡ self.values.least }
    {
        self.values.least
    }

    pub fn scans_with_alarm(self) -> u32
        ensures { result ≡ self.values.alarms }
    {
        self.values.alarms
    }

    pub fn sum_pv(self) -> i64
        ensures { result ≡ self.values.sumpv }
    {
        self.values.sumpv
    }

    pub fn sum_op(self) -> i64
        ensures { result ≡ self.values.sumop }
    {
        self.values.sumop
    }

    pub fn mean_pv(self) -> Mean
        ensures { result ≡ record { sum = self.values.sumpv; count = self.values.scans } }
    {
        Mean {
            sum: self.values.sumpv,
            count: self.values.scans,
        }
    }

    // Two fields, so two functions, as those above.
    pub fn mean_op(self) -> Mean
        ensures { result ≡ record { sum = self.values.sumop; count = self.values.scans } }
    {
        Mean {
            sum: self.values.sumop,
            count: self.values.scans,
        }
    }
}
