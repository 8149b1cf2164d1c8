// The program `print_combined`: reads first.txt and second.txt in the folder that it runs in, and writes the text of the table in which both tables run side
// by side, or the refusal's line.
#![tactic(auto)]

use combined_text::{COMBINED_LENGTH, write_combined_of};
use folder::read_file;
use lts::sizes::ENOUGH_TABLE_TEXT;
use std::io;

fn main(rt: HostRuntime) -> io::Result<()> {
    let mut first = [0u8; ENOUGH_TABLE_TEXT];
    let n = read_file(&rt, "first.txt", &mut first);
    let mut second = [0u8; ENOUGH_TABLE_TEXT];
    let m = read_file(&rt, "second.txt", &mut second);
    let mut out = [0u8; COMBINED_LENGTH];
    let end = write_combined_of(&first[..n], &second[..m], &mut out);
    rt.write_all(&out[..end])
}
