// What Judge answers.
ghost use Rattle.std.specs.Prelude.{◌≡◌};
ghost use Rattle.refusals.specs.Refusals.{answered};
ghost use Rattle.security.specs.Answers.{judge_answer};

use refusals::Refusal;

#[derive(Clone, Copy, Debug, PartialEq, Eq)]
pub enum Verdict {
    Secure,
    Refused(Refusal),
}

impl Verdict {
    // For a caller that goes on only if the placement is secure.
    pub fn ok(self) -> Result<(), Refusal>
        ensures { answered (λ u. u) result ≡ judge_answer self }
    {
        match self {
            Verdict::Secure => Ok(()),
            Verdict::Refused(refusal) => Err(refusal),
        }
    }
}
