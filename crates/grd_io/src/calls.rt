ghost use Rattle.std.specs.Prelude.{◌≡◌, ◌<◌, min};
ghost use Rattle.grd_io.specs.Devices.{after_call, any_step, is_failing, no_calls};

use std::marker::Model;

/// The calls of a device in memory: which fail, by their numbers from 1, how many were made, and
/// how many bytes one gives or takes at most.
#[derive(Drop)]
pub(crate) struct Calls {
    failing: Vec<u64>,
    made: u64,
    step: usize,
}

impl Model for Calls {
    ghost use Rattle.std.specs.Prelude.{◌<◌};
    ghost use Rattle.grd_io.specs.Devices.{DeviceCalls};

    ghost Value = { DeviceCalls };

    ghost view = { λ c. record { failing = c.failing.items; made = c.made; step = c.step } };

    ghost invariant = { λ c. 0 < c.step };
}

impl Calls {
    /// No call was made yet, and one takes any piece whole.
    pub(crate) fn new(failing: Vec<u64>) -> Calls
        ensures { result ≡ no_calls failing.items any_step }
    {
        Calls::in_steps(failing, usize::MAX)
    }

    /// No call was made yet, and one gives or takes at most `step` bytes.
    pub(crate) fn in_steps(failing: Vec<u64>, step: usize) -> Calls
        requires { 0 < step }
        ensures { result ≡ no_calls failing.items step }
    {
        Calls {
            failing,
            made: 0,
            step,
        }
    }

    /// Counts a call, and answers whether it fails.
    pub(crate) fn is_next_failing(&mut self) -> bool
        ensures counted { self.new ≡ after_call self.old }
        ensures listed { result ≡ is_failing self.new }
    {
        self.made = self.made.saturating_add(1);
        self.failing.contains(&self.made)
    }

    /// How many of so many bytes one call gives or takes at most.
    pub(crate) fn most_of(&self, len: usize) -> usize
        ensures most { result ≡ min len self.now.step }
        ensures some { 0 < len → 0 < result }
    {
        len.min(self.step)
    }
}
