// What calls begin with: those that need no more than an accepted description, and those that need a secure placement.
ghost use Rattle.std.specs.Prelude.{◌≡◌};
ghost use Rattle.description.specs.Invariants.{Decoded};
ghost use Rattle.description.specs.Meaning.{outcome_of, Cleared};
ghost use Rattle.judging.specs.Answers.{admission_of, counted, verdict_on};
ghost use Rattle.judging.specs.Calls.{judged, judge_call};
ghost use Rattle.refusals.specs.Refusals.{answered};
ghost use Rattle.security.specs.Answers.{judge_answer};
ghost use Rattle.security.specs.Soundness.{read, sound};

use admission::admit;
use description::workflow::Description;
use reading::decode;
use refusals::Refusal;
use security::answers::Verdict;
use verdicts::verdict;

// What Read accepts, with the number of its candidates; after a refusal nothing is declared.
#[tactic(auto, using(security::proofs::Sound::read_is))]
pub fn accept(description: &[u8], w: &mut Description) -> Result<u64, Refusal>
    ensures w_after { admission_of result w.new ≡ counted (read description.now) }
    ensures cleared { Cleared (read description.now) w.new }
{
    decode(description, w)?;
    let admission = candidates_of(w);
    if admission.is_err() {
        w.clear();
    }
    admission
}

// How many candidates a decoded description has, if it is admitted.
fn candidates_of(w: &Description) -> Result<u64, Refusal>
    requires { Decoded w.now }
    ensures { admission_of result w.now ≡ counted (sound w.now) }
{
    let admitted = admit(w)?;
    Ok(admitted.choices().candidates())
}

// What Read refuses, then what Judge refuses; if neither does, w is the description. After what Read refuses nothing is declared.
#[tactic(auto, using(security::proofs::Sound::read_is), unfolding(crate::specs::Calls::judged, crate::specs::Calls::judge_call))]
pub fn secured(description: &[u8], placement: [u8; 16], w: &mut Description) -> Result<(), Refusal>
    ensures value { answered (λ u. u) result ≡ judge_call description.now placement }
    ensures w_after { outcome_of result w.new ≡ judged description.now placement }
    ensures cleared { Cleared (read description.now) w.new }
{
    decode(description, w)?;
    let refusal = match admit(w) {
        Ok(accepted) => return verdict(accepted.choices(), placement).ok(),
        Err(refusal) => refusal,
    };
    w.clear();
    Err(refusal)
}

// The same as a verdict.
pub fn accept_secure(description: &[u8], placement: [u8; 16], w: &mut Description) -> Verdict
    ensures value { judge_answer result ≡ judge_call description.now placement }
    ensures w_after { verdict_on result w.new ≡ judged description.now placement }
    ensures cleared { Cleared (read description.now) w.new }
{
    match secured(description, placement, w) {
        Ok(()) => Verdict::Secure,
        Err(refusal) => Verdict::Refused(refusal),
    }
}
