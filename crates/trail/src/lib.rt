// The steps that write the trail, and stepping back. refusals: why a step is refused. steps: each step, in place.
#![tactic(auto)]

pub mod refusals;
pub mod steps;

ghost use Rattle.std.specs.Prelude.{◌≡◌};
ghost use Rattle.rules.specs.Refused.{number_in};
ghost use Rattle.trail.specs.Steps.{after_of, rounds_in, rounds_of};

use board::Figures;
use rules::Refusal;

// What a step gives that nothing refuses, where the arrays were changed in place: how many rounds of settling struck something, and the numbers of
// the state after it.
#[derive(Clone, Copy)]
pub struct Outcome {
    pub rounds: usize,
    pub after: Figures,
}

impl Outcome {
    // No round, as in every step but settling.
    fn at(after: Figures) -> Outcome
        ensures { result ≡ record { rounds = 0; after = after } }
    {
        Outcome { rounds: 0, after }
    }
}

// The numbers of the state after a step: those before it, where it is refused.
pub fn after(f: Figures, o: &Result<Outcome, Refusal>) -> Figures
    ensures { result ≡ after_of f o.now }
{
    match *o {
        Ok(done) => done.after,
        Err(_) => f,
    }
}

// The rounds of a step alone, or why it is refused.
pub fn rounds(o: &Result<Outcome, Refusal>) -> Result<usize, Refusal>
    ensures { (number_in result ≡ number_in o.now) × (rounds_of result ≡ rounds_in o.now) }
{
    match *o {
        Ok(done) => Ok(done.rounds),
        Err(refusal) => Err(refusal),
    }
}
