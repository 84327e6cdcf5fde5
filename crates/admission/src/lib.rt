// What Read accepts of a decoded description: one that keeps rules 2 to 4 and has few enough candidates.
#![tactic(auto)]

ghost use Rattle.std.specs.Prelude.{◌≡◌, IfOk};
ghost use Rattle.description.specs.Invariants.{Decoded};
ghost use Rattle.refusals.specs.Refusals.{answered};
ghost use Rattle.security.specs.Accepted.{Admitted as IsAdmitted};
ghost use Rattle.security.specs.Soundness.{sound};

use description::workflow::Description;
use refusals::{Fault, Refusal};
use soundness::first_breaking_rule2;
use soundness::masks::Choices;
use std::marker::Model;
use verdicts::{first_reading_up, first_writing_down};

const MOST_CANDIDATES: u64 = 65536;

// An accepted description, on loan, with its masks and the number of its candidates.
#[derive(Drop)]
pub struct Admitted<'a> {
    choices: Choices<'a>,
}

impl<'a> Model for Admitted<'a> {
    ghost use Rattle.description.specs.Declarations.{Description};
    ghost use Rattle.security.specs.Accepted.{Admitted as IsAdmitted};

    ghost Value = { Description };

    ghost view = { λ a. a.choices };

    ghost invariant = { λ a. IsAdmitted a.choices };
}

impl<'a> Admitted<'a> {
    // Of any description that a walk may be asked about, whether or not it was read from bytes.
    pub fn of(choices: Choices<'a>) -> Admitted<'a>
        requires { IsAdmitted choices }
        ensures { result ≡ choices.entry }
    {
        Admitted { choices }
    }

    pub fn choices(&self) -> &Choices<'a>
        ensures value { result.now ≡ self.now }
        ensures admitted { IsAdmitted self.now }
    {
        &self.choices
    }

    pub fn description(&self) -> &Description
        ensures value { result.now ≡ self.now }
        ensures admitted { IsAdmitted self.now }
    {
        self.choices.description()
    }
}

// Rules 2 to 4 and the limit on candidates, in the order of their numbers.
pub fn admit(w: &Description) -> Result<Admitted<'_>, Refusal>
    requires { Decoded w.now }
    ensures value { answered (λ d. d) result ≡ sound w.now }
    ensures same { IfOk result (λ d. d ≡ w.now) }
{
    let block = first_breaking_rule2(w);
    if let Some(b) = block {
        return Err(Fault::LocationNotCleared.at(b));
    }
    let read = first_reading_up(w);
    if let Some(n) = read {
        return Err(Fault::ReadUp.at(n));
    }
    let write = first_writing_down(w);
    if let Some(n) = write {
        return Err(Fault::WriteDown.at(n));
    }
    let choices = Choices::of(w);
    let too_many = MOST_CANDIDATES < choices.candidates();
    if too_many {
        return Err(Fault::TooManyCandidates.at(0));
    }
    Ok(Admitted::of(choices))
}
