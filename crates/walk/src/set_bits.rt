// The set bits of a mask, from the lowest on.
ghost use Rattle.std.specs.Prelude.{◌<◌, ◌≡◌, ◌∷◌};
ghost use Rattle.std.specs.Int.Count.{count_trailing_zeros};
ghost use Rattle.std.specs.Iterator.{YieldsFirst, item_count};
ghost use Rattle.sequences.specs.Bits.{set_bits};

// Those that are still to come.
#[derive(Drop)]
pub struct SetBits {
    rest: usize,
    ghost byte: { rest < 256 },
}

// The set bits of a mask except the lowest.
fn without_lowest(rest: usize) -> usize
    requires { (0 < rest) × (rest < 256) }
    ensures rest_value { set_bits rest ≡ count_trailing_zeros 64 rest ∷ set_bits result }
    ensures upper_bound { result < rest }
{
    rest & (rest - 1)
}

impl SetBits {
    pub fn new(mask: u8) -> Self
        ensures { result.rest ≡ mask }
    {
        SetBits {
            rest: usize::from(mask),
        }
    }
}

impl Iterator for SetBits {
    type Item = u64;

    ghost next_gives = { YieldsFirst (λ s. set_bits s.rest) };

    ghost remaining = { item_count (λ s. set_bits s.rest) };

    fn next(&mut self) -> Option<u64> {
        let is_empty = self.rest == 0;
        if is_empty {
            return None;
        }
        let lowest = usize::trailing_zeros(self.rest);
        self.rest = without_lowest(self.rest);
        Some(u64::from(lowest))
    }
}
