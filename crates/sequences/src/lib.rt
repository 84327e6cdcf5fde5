// Mathematics of lists, independent of clouds. specs/ has the words that the other crates' definitions are made of, proofs/ their laws.
// The one function makes a mask bit by bit.
#![tactic(auto)]

ghost use Rattle.std.specs.Prelude.{◌≡◌, cond, ◌+◌, ◌*◌, ◌<◌};

// The bits of m moved up by one, and a new lowest bit.
pub fn with_bit(m: u8, on: bool) -> u8
    requires { m < 128 }
    ensures { result ≡ cond on 1 0 + 2 * m }
{
    if on {
        return 1 + 2 * m;
    }
    2 * m
}
