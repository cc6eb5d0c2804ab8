// Words written into a lent slice from a place on.
#![tactic(auto)]

ghost use Rattle.std.specs.Prelude.{◌≡◌, ℕ, List, [], ◌∷◌, ◌+◌, ◌≤◌, ◌<◌, length, get_or};
ghost use Rattle.writing.specs.Writing.{written};

// Write one word; the answer is the next place.
pub fn push(table: &mut [u32], at: usize, x: u32) -> usize
    requires { at < length table.old }
    ensures table_after { table.new ≡ written table.old at (x ∷ []) }
    ensures value { result ≡ at + 1 }
{
    table[at] = x;
    at + 1
}

// Write words side by side; the answer is the next place.
pub fn push_all<const N: usize>(table: &mut [u32], at: usize, words: [u32; N]) -> usize
    requires { at + N ≤ length table.old }
    ensures table_after { table.new ≡ written table.old at words.entry }
    ensures value { result ≡ at + N }
{
    table[at..at + N].copy_from_slice(&words);
    at + N
}

// Write the count, then the word of each member; the answer is the next place.
pub fn write_list<F: Fn(u32) -> u32>(table: &mut [u32], at: usize, n: u32, word_of: F) -> usize
    ghost list: { List ℕ }
    requires callable { (i : ℕ) → i < n → F.pre word_of i }
    requires words { (i w : ℕ) → i < n → F.post word_of i w → w ≡ get_or list i 0 }
    requires count { n ≡ length list }
    requires n_in_bounds { at + 1 + n ≤ length table.old }
    ensures table_after { table.new ≡ written table.old at (length list ∷ list) }
    ensures value { result ≡ at + 1 + n }
{
    let mut p = push(table, at, n);
    for i in 0..n {
        p = push(table, p, word_of(i));
    }
    p
}
