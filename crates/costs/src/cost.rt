// What a block is charged on a cloud. Each product is bounded by its operands' widths, so none overflows.
ghost use Rattle.std.specs.Prelude.{◌≡◌, ◌≤◌, ◌*◌};
ghost use Rattle.costs.specs.Cost.{gigabytes, charged_of, months_of, units_of, storage_of, cpu_of};

use description::workflow::{Cloud, Kind};

// Gigabytes charged for a size in tenths: one more if the remainder is above a half, or is the half after an odd number.
#[tactic(auto, unfolding(crate::specs::Cost::gigabytes))]
pub fn gigabytes(size: u16) -> u64
    ensures value { result ≡ gigabytes size }
    ensures upper_bound { result ≤ 6554 }
{
    let tenths = u64::from(size);
    let whole = tenths / 10;
    if tenths % 10 + whole % 2 > 5 {
        return whole + 1;
    }
    whole
}

pub fn charged_of(kind: Kind) -> u64
    ensures value { result ≡ charged_of kind }
    ensures upper_bound { result ≤ 6554 }
{
    match kind {
        Kind::Datum { size, .. } => gigabytes(size),
        Kind::Service { .. } => 0,
    }
}

// A datum's gigabytes for each month of its longevity.
pub fn months_of(kind: Kind) -> u64
    ensures value { result ≡ months_of kind }
    ensures upper_bound { result ≤ 6554 * 65535 }
{
    match kind {
        Kind::Datum { size, longevity } => gigabytes(size) * u64::from(longevity),
        Kind::Service { .. } => 0,
    }
}

pub fn units_of(kind: Kind) -> u64
    ensures value { result ≡ units_of kind }
    ensures upper_bound { result ≤ 4294967295 }
{
    match kind {
        Kind::Datum { .. } => 0,
        Kind::Service { units, .. } => u64::from(units),
    }
}

pub fn storage_of(cloud: Cloud, kind: Kind) -> u64
    ensures value { result ≡ storage_of cloud kind }
    ensures upper_bound { result ≤ 65535 * (6554 * 65535) }
{
    u64::from(cloud.storage) * months_of(kind)
}

pub fn cpu_of(cloud: Cloud, kind: Kind) -> u64
    ensures value { result ≡ cpu_of cloud kind }
    ensures upper_bound { result ≤ 65535 * 4294967295 }
{
    u64::from(cloud.cpu) * units_of(kind)
}
