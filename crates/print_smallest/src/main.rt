// The program `print_smallest`: reads table.txt and formula.txt in the folder that it runs in, and writes the text of the smallest deterministic automaton with
// the words that `explain` lists, or the refusal's line.
#![tactic(auto)]

use explanations::sizes::KEPT;
use folder::{read_file, scan_formula};
use lts::sizes::ENOUGH_TABLE_TEXT;
use smallest_lines::{SMALLEST_TEXT_LENGTH, write_smallest_of};
use std::io;

fn main(rt: HostRuntime) -> io::Result<()> {
    let mut table = [0u8; ENOUGH_TABLE_TEXT];
    let n = read_file(&rt, "table.txt", &mut table);
    let mut head = [0u8; KEPT];
    let scanned = scan_formula(&rt, &mut head);
    let mut out = [0u8; SMALLEST_TEXT_LENGTH];
    let end = write_smallest_of(&table[..n], &head, scanned, &mut out);
    rt.write_all(&out[..end])
}
