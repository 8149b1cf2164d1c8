// The program `print_formula`: reads table.txt and formula.txt in the folder that it runs in, and writes the formula as it is written back, or the refusal's line.
#![tactic(auto)]

use explanations::sizes::KEPT;
use folder::{read_file, scan_formula};
use formula_line::{LINE_LENGTH, write_line_of};
use lts::sizes::ENOUGH_TABLE_TEXT;
use std::io;

fn main(rt: HostRuntime) -> io::Result<()> {
    let mut table = [0u8; ENOUGH_TABLE_TEXT];
    let n = read_file(&rt, "table.txt", &mut table);
    let mut head = [0u8; KEPT];
    let scanned = scan_formula(&rt, &mut head);
    let mut out = [0u8; LINE_LENGTH];
    let end = write_line_of(&table[..n], &head, scanned, &mut out);
    rt.write_all(&out[..end])
}
