// Placements as numbers: the clouds of the blocks as digits to the base 8, which compare as the placements' bytes do.
#![tactic(auto)]

ghost use Rattle.std.specs.Prelude.{◌≡◌, ◌++◌, ◌-◌, ◌≤◌, ◌<◌, get_or, replicate};
ghost use Rattle.packing.specs.Floors.{FloorOf};
ghost use Rattle.packing.specs.Packing.{digits};

// The cloud of block b.
pub fn cloud_in(place: u64, blocks: usize, b: usize) -> usize
    requires { (blocks ≤ 16) × (b < blocks) }
    ensures { (result ≡ get_or (digits blocks place) b 0) × (result < 8) }
{
    ((place >> (3 * (blocks - 1 - b))) % 8) as usize
}

// The clouds of all blocks, then zeros.
pub fn unpacked(place: u64, blocks: usize) -> [u8; 16]
    requires { blocks ≤ 16 }
    ensures { result ≡ digits blocks place ++ replicate (16 - blocks) 0 }
{
    let mut clouds = [0u8; 16];
    for b in 0..blocks {
        clouds[b] = cloud_in(place, blocks, b) as u8;
    }
    clouds
}

// Where a walk continues past a cursor's sixteen bytes: the least packed placement after them, or 8 ^ blocks if there is none. The bytes
// may be any: if one is no cloud, no placement with the same clouds before it is after the bytes.
pub fn floor_place(bytes: [u8; 16], blocks: usize) -> u64
    requires { blocks ≤ 16 }
    ensures { FloorOf bytes blocks result }
{
    let mut packed: u64 = 0;
    for b in 0..blocks {
        let cloud = u64::from(bytes[b]);
        if 8 <= cloud {
            return (packed + 1) << (3 * (blocks - b));
        }
        packed = packed * 8 + cloud;
    }
    packed + 1
}
