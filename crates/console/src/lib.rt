// What programs share: arguments, input of at most 16 blocks, and the six numbers in print.
#![tactic(auto)]

ghost use Rattle.std.specs.Prelude.{◌≤◌, IfSome};
ghost use Rattle.console.specs.Counts.{IsPrefixLen};

use error::numbers::SixNumbers;
use std::env::{Env, FillError};
use std::fs::Files;
use std::io::Read;
use std::{fs, io, str};

// The six numbers with single spaces and a line end.
pub fn print_numbers(rt: &impl Print, n: SixNumbers) -> io::Result<()> {
    println!(rt; "{n}")
}

// Reads until bytes is full, the input ends or a read fails, and returns how many bytes it put at the start of bytes.
pub fn read_full(from: &mut impl Read, bytes: &mut [u8]) -> usize
    ensures { IsPrefixLen result bytes.new }
{
    let mut done = 0;
    for _ in 0..bytes.len() {
        match from.read(&mut bytes[done..]) {
            Ok(n) if 0 < n => done += n,
            _ => return done,
        }
    }
    done
}

// Over 16 blocks count as no bytes.
pub fn read_input(from: &mut impl Read, bytes: &mut [u8; 8193]) -> usize
    ensures upper_bound { result ≤ 8192 }
    ensures prefix_len { IsPrefixLen result bytes.new }
{
    let n = read_full(from, bytes);
    if n < 8193 {
        return n;
    }
    0
}

// Opens a file by its name. A name that is not UTF-8 is an error, since std opens no such file.
pub fn open_file<R: Files>(files: &R, name: &[u8]) -> io::Result<R::File> {
    match str::from_utf8(name) {
        Ok(path) => fs::open(files, path),
        Err(_) => Err(io::Error::from(io::ErrorKind::InvalidFilename)),
    }
}

// So does a file that cannot be opened.
pub fn read_file(files: &impl Files, name: &[u8], bytes: &mut [u8; 8193]) -> usize
    ensures upper_bound { result ≤ 8192 }
    ensures prefix_len { IsPrefixLen result bytes.new }
{
    match open_file(files, name) {
        Ok(mut file) => read_input(&mut file, bytes),
        Err(_) => 0,
    }
}

// Argument i at the start of name, none past the last one. One that is longer than name counts as no bytes.
pub fn argument(rt: &impl Env, i: usize, name: &mut [u8; 4096]) -> Option<usize>
    ensures { IfSome result (λ n. IsPrefixLen n name.new) }
{
    match rt.arg(i, name) {
        Ok(n) => Some(n),
        Err(FillError::TooLong) => Some(0),
        Err(FillError::NotPresent) => None,
    }
}

// Visits each argument, in order, up to the first error.
pub fn each_argument<F: FnMut(&[u8]) -> io::Result<()>>(
    rt: &impl Env,
    mut visit: F,
) -> io::Result<()>
    requires { F.IsAlwaysCallable visit }
{
    for i in 1..usize::MAX {
        let mut name = [0u8; 4096];
        match argument(rt, i, &mut name) {
            Some(n) => visit(&name[..n])?,
            None => break,
        }
    }
    Ok(())
}
