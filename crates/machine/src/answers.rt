//! How a run stands, and what a step answers.
ghost use Rattle.std.specs.Prelude.{◌≡◌};
ghost use Rattle.machine.specs.Moves.{refusal_number};

/// How a run stands: the tokens shifted, the reductions, the steps, and the stack's height.
#[derive(Clone, Copy, Debug, PartialEq, Eq)]
pub struct Run {
    pub at: usize,
    pub k: usize,
    pub steps: usize,
    pub height: usize,
}

/// What a step comes to: the run goes on, or it ends with this step.
#[derive(Clone, Copy, Debug, PartialEq, Eq)]
pub enum Step {
    On(Run),
    Accept(Run),
    Reject(Run),
}

/// Why a step is refused, by document 01's numbers: no slot for a state, no word for a reduction,
/// or a table that asks for what there is not.
#[derive(Clone, Copy, Debug, PartialEq, Eq)]
pub enum StepRefusal {
    StackRoom = 14,
    OutputRoom = 15,
    BadTable = 17,
}

impl StepRefusal {
    /// 14, 15 or 17.
    pub fn number(self) -> u32
        ensures { result ≡ refusal_number self }
    {
        self as u32
    }
}
