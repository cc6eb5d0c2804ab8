// The nearest family of two types on a linked table: one scan of the spans.
#![tactic(auto)]

ghost use Rattle.std.specs.Prelude.{◌≡◌, true, ◌&&◌, leb, ltb, ◌+◌, ◌<◌};
ghost use Rattle.descends.specs.Descends.{span_count, is_linked};
ghost use Rattle.descends.specs.Nearest.{nearest_of, nearest_in};
ghost use Rattle.query_nearest.specs.Scan.{Spans, Asked, numbered, best_from, Scanned};

use descends::QueryError;
use error::TypeId;
use query::{is_linked, word_at};
use region::at;

// The nearest family so far, or the count of all types where there is none yet, and how wide its span is.
// No Option: with one the loop of `scan` has no branch but a chain of choices, and takes 1.7 times as long (docs/PERFORMANCE.md).
#[derive(Clone, Copy)]
pub struct Candidate {
    family: u32,
    width: usize,
}

// Both tests are made, so that one branch goes by them: few spans hold both numbers.
fn holds(pre: usize, post: usize, low: usize, high: usize) -> bool
    ensures { result ≡ (leb pre low && ltb high post) }
{
    (pre <= low) & (high < post)
}

// Type a takes the candidate's place if its span holds low and high and is no wider: of two as wide the lower number stays.
#[tactic(auto, using(crate::proofs::ScanSteps::bettering))]
fn better(table: &[u32], start: usize, low: usize, high: usize, a: u32, c: Candidate) -> Candidate
    requires spans { Spans table.now start low high }
    requires a_bound { a < span_count table.now }
    requires scanned { Scanned table.now low high (a + 1) c }
    ensures { Scanned table.now low high a result }
{
    let own = start + 1 + 3 * a as usize;
    let pre = word_at(table, own);
    let post = word_at(table, own + 1);
    if holds(pre, post, low, high) && post - pre <= c.width {
        return Candidate {
            family: a,
            width: post - pre,
        };
    }
    c
}

// From the last type down. No span is wider than the first width.
#[tactic(auto, using(crate::proofs::ScanSteps::scanning))]
fn scan(table: &[u32], start: usize, count: u32, low: usize, high: usize) -> Option<TypeId>
    requires spans { Spans table.now start low high }
    requires count_value { count ≡ span_count table.now }
    ensures { result ≡ numbered (best_from table.now low high 0) }
{
    let mut c = Candidate {
        family: count,
        width: 4294967295,
    };
    for a in (0..count).rev() {
        c = better(table, start, low, high, a, c);
    }
    (c.family < count).then_some(TypeId(c.family))
}

// Of two known types, by the numbers at which they are entered, the lower first.
#[tactic(auto, using(crate::proofs::ScanSteps::pairing))]
fn between(table: &[u32], start: usize, count: u32, t: u32, u: u32) -> Option<TypeId>
    requires { Asked table.now start count t u }
    ensures { result ≡ numbered (nearest_of table.now t u) }
{
    let first = word_at(table, start + 1 + 3 * t as usize);
    let second = word_at(table, start + 1 + 3 * u as usize);
    if first <= second {
        return scan(table, start, count, first, second);
    }
    scan(table, start, count, second, first)
}

// A number that is no type has none.
#[tactic(auto, using(crate::proofs::ScanSteps::answering))]
fn answer(table: &[u32], t: u32, u: u32) -> Option<TypeId>
    requires { is_linked table.now ≡ true }
    ensures { result ≡ numbered (nearest_of table.now t u) }
{
    let start = at(table, 9);
    let count = table[start];
    if count <= t {
        return None;
    }
    if count <= u {
        return None;
    }
    between(table, start, count, t, u)
}

// The lowest-numbered type among those of least post minus pre whose span holds both t and u.
#[tactic(auto, using(crate::proofs::ScanSteps::nearing))]
pub fn nearest(table: &[u32], t: TypeId, u: TypeId) -> Result<Option<TypeId>, QueryError>
    ensures { result ≡ nearest_in table.now t.0 u.0 }
{
    if !is_linked(table) {
        return Err(QueryError::NotLinked);
    }
    Ok(answer(table, t.0, u.0))
}
