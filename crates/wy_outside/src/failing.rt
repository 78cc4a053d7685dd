//! The script of a form in memory: which of its calls fail, by number. Nothing here fails a real form.
ghost use Rattle.std.specs.Prelude.{◌≡◌};
ghost use Rattle.wy_outside.specs.Failing.{uncalled, fails_next, after_call};

use crate::count::one_more;

/// The numbers of the calls that fail, counted from 1, and how many calls were made.
#[derive(Drop)]
pub struct FailingCalls {
    pub numbers: Vec<u32>,
    pub calls: u64,
}

impl FailingCalls {
    pub fn new(numbers: Vec<u32>) -> Self
        ensures { result ≡ uncalled numbers }
    {
        FailingCalls { numbers, calls: 0 }
    }

    /// Counts a call, and answers whether it is one of those that fail.
    pub fn count_call(&mut self) -> bool
        ensures fails { result ≡ fails_next self.old }
        ensures counted { self.new ≡ after_call self.old }
    {
        self.calls = one_more(self.calls);
        let call = self.calls;
        self.numbers.iter().any(|number| u64::from(*number) == call)
    }
}
