// A run with a budget, and what the bare machine refuses.
ghost use Rattle.std.specs.Prelude.{◌≡◌, length};
ghost use Rattle.refusals.specs.Refusals.{number_in};
ghost use Rattle.machine.specs.Numbers;
ghost use Rattle.machine.specs.Step.{machine_at, machine_of};
ghost use Rattle.machine.specs.Run.{outcome_at, outcome_from, refusal_of, run_of};
ghost use Rattle.machine.specs.RunAnswers.{refusal_in, outcome_in};

use crate::numbers::{BUDGET, CODE_WORDS, HEAP_WORDS, RUNNING, Stop};
use crate::registers::Registers;
use crate::table::{State, act};
use refusals::{Refusal, require};

// What a run leaves beside the heap: the state, and the count of words acted on.
#[derive(Clone, Copy)]
pub struct Ran {
    pub state: State,
    pub count: u32,
}

// What the bare machine refuses of a code and a heap of so many words and of a budget.
#[tactic(auto, unfolding(choice::specs::Pick::pick, crate::specs::Run::refusal_of, crate::specs::Numbers::CODE_WORDS, crate::specs::Numbers::HEAP_WORDS, crate::specs::Numbers::BUDGET))]
pub fn within_limits(code: usize, heap: usize, budget: u32) -> Result<(), Refusal>
    ensures { number_in result ≡ refusal_of code heap budget }
{
    require(code <= CODE_WORDS, Refusal::CodeTooLong)?;
    require(heap <= HEAP_WORDS, Refusal::BadSize)?;
    require(budget <= BUDGET, Refusal::BudgetTooLarge)
}

// Steps until the machine stops or the budget is used. The registers are in a local that each step is
// lent: a state by value would be copied at every step.
fn drive(code: &[u32], heap: &mut [u32], start: [u32; 16], budget: u32) -> Ran
    ensures { outcome_at (machine_of result.state heap.new) result.count ≡ outcome_from code.now budget (machine_at start 0 Numbers.RUNNING heap.old) 0 }
{
    let aside = start[0];
    let mut regs = Registers::new(start);
    let mut pc = 0;
    for count in 0..budget {
        match act(code, heap, &mut regs, pc) {
            Ok(next) => pc = next,
            Err(stop) => {
                return Ran {
                    state: regs.into_state(aside, pc, stop.status()),
                    count: count + stop.counted(),
                };
            }
        }
    }
    Ran {
        state: regs.into_state(aside, pc, RUNNING),
        count: budget,
    }
}

// Runs the code from pc 0 over the heap, if nothing is refused; a refusal changes nothing.
#[tactic(auto, using(crate::specs::RunAnswerLaws::answers))]
pub fn run(code: &[u32], heap: &mut [u32], regs: [u32; 16], budget: u32) -> Result<Ran, Refusal>
    ensures refused { refusal_in result ≡ refusal_of (length code.now) (length heap.old) budget }
    ensures outcome { outcome_in result regs heap.new ≡ run_of code.now heap.old regs budget }
{
    within_limits(code.len(), heap.len(), budget)?;
    Ok(drive(code, heap, regs, budget))
}
