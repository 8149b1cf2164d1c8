// A line of the sheet asked of the library, and words asked of what the line left.
ghost use Rattle.std.specs.Prelude.{◌≤◌, ◌<◌, length};

use crate::writing::print_reply;
use actl::sizes::FORMULA_LENGTH;
use explaining::explain;
use explanations::sizes::{EDGES_LENGTH, ROWS_LENGTH, TEXT_LENGTH};
use lts::sizes::TABLE_LENGTH;
use std::io;
use words::{WordRefusal, accepts};

fn print_letters(rt: &impl Print, letters: &[u8]) -> io::Result<()> {
    for letter in letters {
        print!(rt; " {letter}")?;
    }
    Ok(())
}

fn print_answer(rt: &impl Print, reply: Result<bool, WordRefusal>) -> io::Result<()> {
    match reply {
        Ok(true) => rt.write_all(b": 1\n"),
        Ok(false) => rt.write_all(b": 0\n"),
        Err(_) => rt.write_all(b": refused\n"),
    }
}

// Whether the automaton accepts a word.
fn word(rt: &impl Print, table: &[u8], formula: &[u8], letters: &[u8]) -> io::Result<()> {
    rt.write_all(b"word")?;
    print_letters(rt, letters)?;
    print_answer(rt, accepts(table, formula, letters))
}

// Where the word that starts at `from` ends.
fn word_end(words: &[u8], from: usize) -> usize
    requires { from < length words.now }
    ensures { (from ≤ result) × (result ≤ length words.now) }
{
    for i in from..words.len() {
        if words[i] == 255 {
            return i;
        }
    }
    words.len()
}

fn ask(rt: &impl Print, table: &[u8], formula: &[u8], words: &[u8]) -> io::Result<()> {
    let mut from = 0;
    while from < words.len() {
        let to = word_end(words, from);
        word(rt, table, formula, &words[from..to])?;
        from = to + 1;
    }
    Ok(())
}

pub fn line(
    rt: &impl Print,
    name: &[u8],
    tabletext: &[u8],
    formulatext: &[u8],
    words: &[u8],
) -> io::Result<()> {
    let mut table = [0u8; TABLE_LENGTH];
    let mut formula = [0u8; FORMULA_LENGTH];
    let mut rows = [0u8; ROWS_LENGTH];
    let mut edges = [0u8; EDGES_LENGTH];
    let mut out = [0u8; TEXT_LENGTH];
    rt.write_all(name)?;
    rt.write_all(b" \"")?;
    rt.write_all(formulatext)?;
    rt.write_all(b"\"\n")?;
    let reply = explain(
        tabletext,
        formulatext,
        &mut table,
        &mut formula,
        &mut rows,
        &mut edges,
    );
    print_reply(rt, reply, &rows, &edges, &mut out)?;
    ask(rt, &table, &formula, words)
}
