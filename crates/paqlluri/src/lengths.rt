// Chain lengths for C and Rust.
ghost use Rattle.std.specs.Prelude.{◌≡◌};
ghost use Rattle.descends.specs.Lengths.{chain_length_in, length_numbers};

use descends::QueryError;
use error::TypeId;

// Kind, 0 or 25, and how many numbers the chain of t has: 1 at a root, 0 where t is no struct type.
#[tactic(auto, using(crate::proofs::Two::lengths))]
pub fn paqlluri_chain_length(table: &[u32], t: u32, answer: &mut [u32; 2])
    ensures { answer.new ≡ length_numbers (chain_length_in table.now t) }
{
    *answer = match query::chain_length(table, TypeId(t)) {
        Ok(n) => [0, n],
        Err(QueryError::NotLinked) => [25, 0],
    };
}
