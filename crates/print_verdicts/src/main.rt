// The program `print_verdicts`: reads table.txt and formula.txt in the folder that it runs in, and a list of states from its standard input, and writes
// the verdict at each of them, or the refusal's line.
#![tactic(auto)]

use explanations::sizes::KEPT;
use folder::{read_file, read_full, scan_formula};
use lts::sizes::ENOUGH_TABLE_TEXT;
use std::io;
use verdict_lines::{LINES_LENGTH, LIST_LENGTH, write_verdicts_of};

fn main(rt: HostRuntime) -> io::Result<()> {
    let mut table = [0u8; ENOUGH_TABLE_TEXT];
    let n = read_file(&rt, "table.txt", &mut table);
    let mut head = [0u8; KEPT];
    let scanned = scan_formula(&rt, &mut head);
    let mut list = [0u8; LIST_LENGTH];
    let listed = read_full(&mut rt.stdin(), &mut list);
    let mut out = [0u8; LINES_LENGTH];
    let end = write_verdicts_of(&table[..n], &head, scanned, &list, listed, &mut out);
    rt.write_all(&out[..end])
}
