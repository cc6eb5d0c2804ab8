// The nearest family for C and Rust.
ghost use Rattle.std.specs.Prelude.{◌≡◌};
ghost use Rattle.descends.specs.Nearest.{nearest_in, nearest_numbers};

use descends::QueryError;
use error::TypeId;

// Kind, 0 where it was found, 1 where there is none or 25, and the nearest family of t and u, 0 unless found.
#[tactic(auto, using(crate::proofs::Two::nearests))]
pub fn paqlluri_nearest(table: &[u32], t: u32, u: u32, answer: &mut [u32; 2])
    ensures { answer.new ≡ nearest_numbers (nearest_in table.now t u) }
{
    *answer = match query_nearest::nearest(table, TypeId(t), TypeId(u)) {
        Ok(Some(f)) => [0, f.0],
        Ok(None) => [1, 0],
        Err(QueryError::NotLinked) => [25, 0],
    };
}
