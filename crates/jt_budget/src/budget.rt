//! Defines the budget of a run, and the calls that take from it.
ghost use Rattle.std.specs.Prelude.{◌≡◌, ◌<◌, ◌≤◌, ◌+◌, ◌-◌, ◌^◌, ◌⊎◌, IfErr, OnOk};

use crate::spent::Spent;

/// The resources that a run may use. If one of the five numbers does not suffice, the run ends and
/// names it.
#[derive(Clone, Copy, Debug, PartialEq, Eq)]
pub struct Budget {
    /// The total cost of the instructions.
    pub fuel: u64,
    /// The number of calls that may be open at one time.
    pub depth: u32,
    /// The number of bytes that may be written to output buffers, captures included.
    pub output: u64,
    /// The greatest size of a value.
    pub size: u32,
    /// The greatest nesting of a value.
    pub nesting: u8,
}

impl Budget {
    /// Takes `cost` from the fuel.
    ///
    /// # Errors
    ///
    /// `Fuel` if less than `cost` is left. The budget is then unchanged.
    pub fn charge(&mut self, cost: u64) -> Result<(), Spent>
        ensures ok { OnOk result ((cost ≤ self.old.fuel)
            × (self.new ≡ record self.old { fuel = self.old.fuel - cost })) }
        ensures err { IfErr result
            (λ e. (e ≡ Spent.Fuel) × (self.old.fuel < cost) × (self.new ≡ self.old)) }
    {
        if cost > self.fuel {
            return Err(Spent::Fuel);
        }
        self.fuel -= cost;
        Ok(())
    }

    /// Takes `bytes` from the output.
    ///
    /// # Errors
    ///
    /// `Output` if fewer than `bytes` are left. The budget is then unchanged.
    pub fn emit(&mut self, bytes: u64) -> Result<(), Spent>
        ensures ok { OnOk result ((bytes ≤ self.old.output)
            × (self.new ≡ record self.old { output = self.old.output - bytes })) }
        ensures err { IfErr result
            (λ e. (e ≡ Spent.Output) × (self.old.output < bytes) × (self.new ≡ self.old)) }
    {
        if bytes > self.output {
            return Err(Spent::Output);
        }
        self.output -= bytes;
        Ok(())
    }

    /// Takes one from the depth when a call opens.
    ///
    /// # Errors
    ///
    /// `Depth` if none is left. The budget is then unchanged.
    pub fn enter(&mut self) -> Result<(), Spent>
        ensures ok { OnOk result
            ((1 ≤ self.old.depth) × (self.new ≡ record self.old { depth = self.old.depth - 1 })) }
        ensures err { IfErr result
            (λ e. (e ≡ Spent.Depth) × (self.old.depth ≡ 0) × (self.new ≡ self.old)) }
    {
        if self.depth == 0 {
            return Err(Spent::Depth);
        }
        self.depth -= 1;
        Ok(())
    }

    /// Returns one to the depth when a call returns.
    pub fn leave(&mut self)
        requires { self.old.depth < 2 ^ 32 - 1 }
        ensures { self.new ≡ record self.old { depth = self.old.depth + 1 } }
    {
        self.depth += 1;
    }

    /// Checks that a value of this size and nesting is within the limits. It takes nothing from the
    /// budget.
    ///
    /// # Errors
    ///
    /// - `Size` if the size is above its limit.
    /// - `Nesting` if the size is within its limit and the nesting is above its own.
    pub fn fits(&self, size: u64, nesting: u32) -> Result<(), Spent>
        ensures ok { OnOk result ((size ≤ self.now.size) × (nesting ≤ self.now.nesting)) }
        ensures err { IfErr result (λ e. ((e ≡ Spent.Size) × (self.now.size < size))
            ⊎ ((e ≡ Spent.Nesting) × (size ≤ self.now.size) × (self.now.nesting < nesting))) }
    {
        if size > u64::from(self.size) {
            return Err(Spent::Size);
        }
        if nesting > u32::from(self.nesting) {
            return Err(Spent::Nesting);
        }
        Ok(())
    }
}
