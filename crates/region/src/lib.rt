// Words of a lent slice: read, store, copy and count up, for regions of one slice that are given by their places.
#![tactic(auto)]

ghost use Rattle.std.specs.Prelude.{◌≡◌, ℕ, ◌+◌, ◌≤◌, ◌<◌, min, length, get_or, set};
ghost use Rattle.region.specs.Region.{Off, Frame, word_at};

pub fn widen(x: u32) -> usize
    ensures { result ≡ x }
{
    x as usize
}

pub fn least(a: usize, b: usize) -> usize
    ensures { result ≡ min a b }
{
    a.min(b)
}

// The word at a place.
pub fn at(work: &[u32], k: usize) -> usize
    requires { k < length work.now }
    ensures { result ≡ get_or work.now k 0 }
{
    widen(work[k])
}

// Store a word.
pub fn put(work: &mut [u32], k: usize, x: usize)
    requires { (k < length work.old) × (x < 4294967296) }
    ensures { work.new ≡ set work.old k x }
{
    work[k] = x as u32;
}

// Copy the word at a to b.
pub fn copy_word(work: &mut [u32], a: usize, b: usize)
    requires { (a < length work.old) × (b < length work.old) }
    ensures { work.new ≡ set work.old b (get_or work.old a 0) }
{
    work[b] = work[a];
}

// Write 0, 1, .. n - 1.
pub fn count_up(work: &mut [u32], a: usize, n: usize)
    requires { (a + n ≤ length work.old) × (n ≤ 4294967296) }
    ensures frame { Frame (Off a (a + n)) work.old work.new }
    ensures by_index { (p : ℕ) → p < n → word_at work.new a p ≡ p }
{
    for i in 0..n {
        put(work, a + i, i);
    }
}

// Write x, n times.
pub fn fill(work: &mut [u32], a: usize, n: usize, x: usize)
    requires { (a + n ≤ length work.old) × (x < 4294967296) }
    ensures frame { Frame (Off a (a + n)) work.old work.new }
    ensures by_index { (p : ℕ) → p < n → word_at work.new a p ≡ x }
{
    for i in 0..n {
        put(work, a + i, x);
    }
}
