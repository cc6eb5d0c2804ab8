// Loads the sheet on standard input and prints the six numbers of the answer and, where it is accepted, the words of the linked table,
// sixteen to a line. The host list is the file `hosts`.
#![tactic(auto)]

use console::{print_numbers, read_file, read_input};
use error::numbers::numbers;
use loader::load;
use std::io;

// Word i, and what parts it from the next; `left` words are left with it.
fn print_word(rt: &impl Print, word: u32, i: usize, left: usize) -> io::Result<()> {
    if i % 16 == 15 || left == 1 {
        return println!(rt; "{word}");
    }
    print!(rt; "{word} ")
}

fn print_words(rt: &impl Print, words: &[u32], n: usize) -> io::Result<()> {
    for (i, word) in words.iter().take(n).enumerate() {
        print_word(rt, *word, i, n - i)?;
    }
    Ok(())
}

// 16 blocks hold N = 2,032 words, for which 64 + 8N words of table and of work are enough.
fn report(rt: &impl Print, sheet: &[u8], hosts: &[u8]) -> io::Result<()> {
    let mut table = [0u32; 16320];
    let mut work = [0u32; 16320];
    let answer = load(sheet, hosts, &mut table, &mut work);
    print_numbers(rt, numbers(answer))?;
    if let Ok(words) = answer {
        print_words(rt, &table, words as usize)?;
    }
    Ok(())
}

fn main(rt: HostRuntime) -> io::Result<()> {
    let mut bytes = [0u8; 8193];
    let mut list = [0u8; 8193];
    let n = read_input(&mut rt.stdin(), &mut bytes);
    let m = read_file(&rt, b"hosts", &mut list);
    report(&rt, &bytes[..n], &list[..m])
}
