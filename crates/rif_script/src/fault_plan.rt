ghost use Rattle.std.specs.Prelude.{◌≡◌, ◌-◌, ◌<◌, ◌^◌, [], ◌∷◌};

use crate::failed::Failed;
use rif_values::Listed;

/// Which calls on a form in memory fail, and what was counted of them.
#[derive(Drop)]
pub struct FaultPlan {
    /// The numbers of the calls that fail, counted from 1.
    pub fail: Listed<u64>,
    /// The calls that were made, cut to `u64::MAX`.
    pub calls: u64,
    /// The calls that have failed.
    pub faults: u64,
}

impl FaultPlan {
    ghost use Rattle.rif_script.specs.InMemory.{fresh_plan, is_next_planned, call_answer, plan_after};

    /// The plan in which the calls of these numbers fail. It takes no memory.
    pub fn new(fail: Vec<u64>) -> FaultPlan
        ensures { result ≡ fresh_plan fail.items }
    {
        FaultPlan {
            fail: Listed::from_vec(fail),
            calls: 0,
            faults: 0,
        }
    }

    /// Counts a call. It fails where its number is in the plan, or where it `is_blocked`. The cost is
    /// the plan's length.
    pub fn count_call(&mut self, is_blocked: bool) -> Result<(), Failed>
        requires { self.old.faults < 2 ^ 64 - 1 }
        ensures answer { result ≡ call_answer self.old is_blocked }
        ensures after { self.new ≡ plan_after self.old is_blocked }
    {
        let is_planned = self.is_next_planned();
        self.calls = self.calls.saturating_add(1);
        if is_blocked || is_planned {
            self.faults += 1;
            return Err(Failed);
        }
        Ok(())
    }

    fn is_next_planned(&self) -> bool
        ensures { result ≡ is_next_planned self.now }
    {
        match self.calls.checked_add(1) {
            Some(number) => self.fail.as_slice().contains(&number),
            None => false,
        }
    }
}
