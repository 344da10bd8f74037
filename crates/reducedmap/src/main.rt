//! Reads a response file from standard input and prints the reduced map as a map file, or the first refusal.

#![tactic(auto)]

use printing::MOST_MAP_BYTES;
use rfc4180::read_input;
use std::io;
use std::io::Write;
use survey::reducedmap;

fn main(rt: HostRuntime) -> io::Result<()> {
    let file = read_input(rt.alloc(), rt.stdin())?;
    let mut text = [0; MOST_MAP_BYTES];
    let length = reducedmap(file.as_slice(), &mut text).unwrap();
    rt.stdout().write_all(&text[..length])
}
