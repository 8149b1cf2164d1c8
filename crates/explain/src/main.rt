// The program `explain`: reads table.txt and formula.txt in the folder that it runs in, and writes the listing or the refusal's line.
#![tactic(auto)]

use explained_text::explain_files;
use explanations::sizes::{KEPT, TEXT_LENGTH};
use folder::{read_file, scan_formula};
use lts::sizes::ENOUGH_TABLE_TEXT;
use std::io;

fn main(rt: HostRuntime) -> io::Result<()> {
    let mut table = [0u8; ENOUGH_TABLE_TEXT];
    let n = read_file(&rt, "table.txt", &mut table);
    let mut head = [0u8; KEPT];
    let scanned = scan_formula(&rt, &mut head);
    let mut out = [0u8; TEXT_LENGTH];
    let end = explain_files(&table[..n], &head, scanned, &mut out);
    rt.write_all(&out[..end])
}
