// What the programs read: table.txt and formula.txt in the folder that they run in, or two tables, first.txt and second.txt.
#![tactic(auto)]

ghost use Rattle.files.specs.inner.Scan.{scan_start};
ghost use Rattle.files.specs.inner.Writing.{PrefixLength};
ghost use Rattle.folder.specs.inner.Scanning.{ScannedOn};

use explanations::sizes::KEPT;
use files::{Scanned, scan_chunk, scan_start};
use std::fs;
use std::io::Read;
use std::rt::Files;

// Reads until the buffer is full, the input ends or a read fails, and answers how many bytes it put at the start of the buffer.
pub fn read_full<I: Read>(input: &mut I, buffer: &mut [u8]) -> usize
    ensures { PrefixLength result buffer.new }
{
    let mut done = 0;
    while done < buffer.len() {
        match input.read(&mut buffer[done..]) {
            Ok(0) | Err(_) => break,
            Ok(n) => done += n,
        }
    }
    done
}

// The formula file so far, and whether there may be more of it.
#[derive(Drop)]
struct Portion {
    scanned: Scanned,
    more: bool,
}

fn scan_some<I: Read>(input: &mut I, head: &mut [u8; KEPT], scanned: Scanned) -> Portion
    ensures { ScannedOn head.old scanned head.new result.scanned }
{
    let mut chunk = [0u8; 65536];
    let n = read_full(input, &mut chunk);
    Portion {
        scanned: scan_chunk(&chunk[..n], head, scanned),
        more: n > 0,
    }
}

// A proved loop has to end, and nothing says that a file does: the loop has more rounds than any file uses up.
fn scan_all<I: Read>(input: &mut I, head: &mut [u8; KEPT]) -> Scanned
    ensures { ScannedOn head.old scan_start head.new result }
{
    let mut scanned = scan_start();
    for _ in 0..u64::MAX {
        let portion = scan_some(input, head, scanned);
        scanned = portion.scanned;
        if !portion.more {
            return scanned;
        }
    }
    scanned
}

// A file that cannot be opened counts as empty, and one whose reading fails ends there.
pub fn scan_formula<R: Files>(rt: &R, head: &mut [u8; KEPT]) -> Scanned
    ensures { ScannedOn head.old scan_start head.new result }
{
    match fs::open(rt, "formula.txt") {
        Ok(mut file) => scan_all(&mut file, head),
        Err(_) => scan_start(),
    }
}

// As many bytes of a file as there is room for, and how many they are: none, if it cannot be opened.
pub fn read_file<R: Files>(rt: &R, name: &str, table: &mut [u8]) -> usize
    ensures { PrefixLength result table.new }
{
    match fs::open(rt, name) {
        Ok(mut file) => read_full(&mut file, table),
        Err(_) => 0,
    }
}
