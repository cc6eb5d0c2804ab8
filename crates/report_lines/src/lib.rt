// The report over sheets.
#![tactic(auto)]

use error::LoadError;
use exact::Total;

// On one sheet: the answer to it; how many words its lines take, two for each struct type; how many these are, and their sizes' sum.
#[derive(Clone, Copy)]
pub struct SheetReport {
    pub answer: Result<u32, LoadError>,
    pub words: usize,
    pub structs: u32,
    pub sizes: u64,
}

// Both sums over sheets.
#[derive(Clone, Copy)]
pub struct Totals {
    pub structs: Total,
    pub sizes: Total,
}
