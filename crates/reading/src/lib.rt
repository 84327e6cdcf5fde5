// A description's bytes are read command by command, or refused with 1 to 8.
#![tactic(auto)]

ghost use Rattle.std.specs.Prelude.{◌≡◌, OnOk};
ghost use Rattle.description.specs.Declarations.{nothing};
ghost use Rattle.description.specs.Invariants.{Decoded};
ghost use Rattle.description.specs.Meaning.{outcome_of, Cleared};
ghost use Rattle.decoding.specs.Format.{read_from, decode};

use command_steps::command_step;
use description::workflow::Description;
use refusals::{Fault, Refusal};

// The byte that ends the description.
const END: u8 = 0;

// All commands, up to 00 and the end after it.
fn read_commands(s: &[u8], w: &mut Description) -> Result<(), Refusal>
    ensures { outcome_of result w.new ≡ read_from s.now 0 0 nothing }
{
    let mut at = 0;
    w.clear();
    while at < s.len() {
        if s[at] == END {
            if at + 1 == s.len() {
                return Ok(());
            }
            return Err(Fault::AfterEnd.at(at + 1));
        }
        match command_step(&s[at..], w) {
            Ok(width) => at += width,
            Err(bad) => return Err(bad.fault.at(at)),
        }
    }
    Err(Fault::CutShort.at(at))
}

// The whole description, with at least a cloud and a block.
#[tactic(auto, using(crate::proofs::Outcomes::decoded))]
fn read_whole(s: &[u8], w: &mut Description) -> Result<(), Refusal>
    ensures { outcome_of result w.new ≡ decode s.now }
{
    read_commands(s, w)?;
    if w.cloud_count() == 0 {
        return Err(Fault::NothingDeclared.at(s.len()));
    }
    if w.block_count() == 0 {
        return Err(Fault::NothingDeclared.at(s.len()));
    }
    Ok(())
}

// Decodes a description; after a refusal nothing is declared.
pub fn decode(s: &[u8], w: &mut Description) -> Result<(), Refusal>
    ensures w_after { outcome_of result w.new ≡ decode s.now }
    ensures cleared { Cleared (decode s.now) w.new }
    ensures decoded { OnOk result (Decoded w.new) }
{
    let outcome = read_whole(s, w);
    if outcome.is_err() {
        w.clear();
    }
    outcome
}
