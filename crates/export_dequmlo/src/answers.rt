// The numbers by which C is answered: 0 where a call is done, else that of its refusal.
ghost use Rattle.std.specs.Prelude.{◌≡◌};
ghost use Rattle.theory_laws.specs.Refusals.{answered};

use theory_laws::Refusal;

// The number of an answer.
pub fn number_of(answer: Result<(), Refusal>) -> u32
    ensures { result ≡ answered answer }
{
    match answer {
        Ok(()) => 0,
        Err(refusal) => refusal.number(),
    }
}
