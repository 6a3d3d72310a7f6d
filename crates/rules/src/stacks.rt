// The stack of labels.
ghost use Rattle.std.specs.Prelude.{◌≡◌, ◌<◌, [], ◌∷◌, length};
ghost use Rattle.listing.specs.Limits;
ghost use Rattle.rules.specs.Context.{same_of};
ghost use Rattle.rules.specs.Held.{stack_in, label_in};

use crate::labels::Label;

// A stack of labels: those from `top` on, the top one first.
// No ArrayVec: that is not Copy, and its last one comes last, where `stack_in` has it first.
// No invariant on `top`: `stack_in` holds of any, past the cells of an empty stack, and so does each promise here.
#[derive(Clone, Copy)]
pub struct Stack {
    pub top: usize,
    pub cells: [u32; 16],
}

impl Stack {
    pub(crate) fn empty() -> Stack
        ensures { stack_in result ≡ [] }
    {
        Stack {
            top: 16,
            cells: [0; 16],
        }
    }

    // Its labels, the top one first.
    pub fn labels(&self) -> &[u32]
        ensures { result.now ≡ stack_in self.now }
    {
        self.cells.get(self.top..).unwrap_or(&[])
    }

    // How many labels are on it.
    pub fn depth(&self) -> usize
        ensures { result ≡ length (stack_in self.now) }
    {
        self.labels().len()
    }

    // Puts a label on top.
    pub(crate) fn push(&mut self, l: u32)
        requires { length (stack_in self.old) < Limits.STACK }
        ensures { stack_in self.new ≡ l ∷ stack_in self.old }
    {
        let top = self.top.min(16) - 1;
        self.cells[top] = l;
        self.top = top;
    }

    // Whether it equals a label's.
    pub(crate) fn is(&self, label: Label) -> bool
        ensures { result ≡ same_of (stack_in self.now) (label_in label.entry).stack }
    {
        label.has_stack(self.labels())
    }

    // Whether l is on top, and the rest equals a label's.
    #[tactic(auto, using(crate::specs::HeldLaws::belows), unfolding(crate::specs::Context::same_of, choice::specs::Pick::pick))]
    pub(crate) fn is_on(&self, l: u32, label: Label) -> bool
        ensures { result ≡ same_of (stack_in self.now) (l ∷ (label_in label.entry).stack) }
    {
        match self.labels() {
            [top, below @ ..] => *top == l && label.has_stack(below),
            [] => false,
        }
    }
}
