// The charges by name, and a bill.

// What a block is charged for on a cloud: a datum for its storage or for that of a copy, a service for its computing.
#[derive(Clone, Copy, Debug, PartialEq, Eq)]
pub enum Charge {
    Storage,
    Copy,
    Cpu,
}

// What a placement costs, by its parts: the amounts for storage, transfers and computing.
#[derive(Clone, Copy, Debug, PartialEq, Eq)]
pub struct Bill {
    pub storage: u64,
    pub transfer: u64,
    pub cpu: u64,
}
