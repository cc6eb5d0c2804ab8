// The parts of a sheet whose members are short: constants, imports and globals, hooks and exports.
#![tactic(auto)]

pub mod consts;
pub mod imports;
pub mod tail;
