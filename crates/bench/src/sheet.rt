// The lines of the bench sheet in its order, and 02's behind them; those that are explained with words for their automata: each word's letters, then 255.
use crate::asking::line;
use std::io;

// A line on table M.
fn on_m(rt: &impl Print, formulatext: &[u8], words: &[u8]) -> io::Result<()> {
    let text =
        b"     3     2     3     0\n     1 req\n     2 ack\n     0     1     1\n     1     0     2\n     1     2     0\n";
    line(rt, b"M", text, formulatext, words)
}

pub fn explained_on_m(rt: &impl Print) -> io::Result<()> {
    on_m(rt, b"T", &[255, 1, 255])?;
    on_m(rt, b"~T", &[255, 1, 255])?;
    on_m(rt, b"AX[req] T", &[255, 1, 255])?;
    on_m(rt, b"AX[ack] T", &[1, 255, 255, 2, 255, 1, 0, 255])?;
    on_m(rt, b"AX[req] AX[ack] T", &[1, 0, 255, 1, 255, 1, 2, 255])?;
    on_m(
        rt,
        b"EU[req] EX[ack] T",
        &[1, 2, 255, 255, 2, 255, 1, 2, 1, 2, 255],
    )?;
    on_m(rt, b"EU[~req] T", &[255, 1, 255])?;
    on_m(rt, b"EX[ack] T", &[255, 2, 255])
}

pub fn refused_on_m(rt: &impl Print) -> io::Result<()> {
    on_m(rt, b"", &[])?;
    on_m(rt, b"EX[a T", &[])?;
    on_m(rt, b"EX[a] T", &[])?;
    on_m(rt, b"T | ~T", &[])?;
    on_m(rt, b"~EX[req] ~T", &[])
}

// The most nodes that there may be, and one more.
pub fn negations_on_m(rt: &impl Print) -> io::Result<()> {
    on_m(rt, b"~~~~~~~~~~~~~~~~~~~~~~~~~~~~~~~~~~~~~~~T", &[])?;
    on_m(rt, b"~~~~~~~~~~~~~~~~~~~~~~~~~~~~~~~~~~~~~~~~T", &[])
}

fn on_state(rt: &impl Print, formulatext: &[u8], words: &[u8]) -> io::Result<()> {
    line(
        rt,
        b"one state",
        b"     1     0     0     0\n",
        formulatext,
        words,
    )
}

pub fn on_one_state(rt: &impl Print) -> io::Result<()> {
    on_state(
        rt,
        b"EU[*] EX[.] T",
        &[99, 255, 99, 99, 255, 99, 99, 99, 255, 255, 0, 255],
    )?;
    on_state(rt, b"EX[*] T", &[99, 255])?;
    on_state(rt, b"AX[.] T", &[99, 255])
}

pub fn on_loops(rt: &impl Print) -> io::Result<()> {
    let text =
        b"     1     3     3     0\n     1 a\n     2 b\n     3 c\n     0     1     0\n     0     2     0\n     0     3     0\n";
    let words = &[2, 255, 3, 255, 1, 2, 255, 1, 3, 255, 255, 1, 255, 2, 2, 255];
    line(
        rt,
        b"loops",
        text,
        b"EX[b] T | EX[c] T | EX[a] EX[b] T",
        words,
    )
}

// 02's short forms, each line above its expansion.
pub fn short_forms_on_m(rt: &impl Print) -> io::Result<()> {
    on_m(
        rt,
        b"AG ~EX[ack] T",
        &[1, 2, 255, 255, 2, 255, 1, 2, 1, 2, 255],
    )?;
    on_m(
        rt,
        b"(~EU[*] ~~EX[ack] T)",
        &[1, 2, 255, 255, 2, 255, 1, 2, 1, 2, 255],
    )?;
    on_m(rt, b"BOX[req] ~EX[ack] T", &[1, 2, 255, 1, 255, 255])?;
    on_m(rt, b"(~EX[req] ~~EX[ack] T)", &[1, 2, 255, 1, 255, 255])?;
    on_m(rt, b"EF DIA[ack] T", &[1, 2, 255, 1, 2, 1, 2, 255, 255])?;
    on_m(
        rt,
        b"(EU[*] (EX[ack] T))",
        &[1, 2, 255, 1, 2, 1, 2, 255, 255],
    )?;
    on_m(rt, b"AX[req] T & ~EX[ack] T", &[255, 1, 255, 2, 255])?;
    on_m(rt, b"(~(~AX[req] T | ~~EX[ack] T))", &[255, 1, 255, 2, 255])
}

pub fn short_forms_without_class_on_m(rt: &impl Print) -> io::Result<()> {
    on_m(rt, b"T & T", &[])?;
    on_m(rt, b"AG T", &[])?;
    on_m(rt, b"BOX[req] T", &[])?;
    on_m(rt, b"AG EF T", &[])?;
    on_m(rt, b"T | ~T & ~T", &[])?;
    on_m(rt, b"(T | ~T) & ~T", &[])
}

// The longest beginnings: whole lines, then lines that go wrong.
pub fn short_forms_cut_on_m(rt: &impl Print) -> io::Result<()> {
    on_m(rt, b"DI", &[])?;
    on_m(rt, b"BO", &[])?;
    on_m(rt, b"EF", &[])?;
    on_m(rt, b"T&", &[])?;
    on_m(rt, b"T & ", &[])
}

pub fn short_forms_spoilt_on_m(rt: &impl Print) -> io::Result<()> {
    on_m(rt, b"DIAT", &[])?;
    on_m(rt, b"DIA T", &[])?;
    on_m(rt, b"DIA[.", &[])?;
    on_m(rt, b"BOX[req;", &[])?;
    on_m(rt, b"EF[req] T", &[])?;
    on_m(rt, b"AG [req]", &[])?;
    on_m(rt, b"T&&T", &[])?;
    on_m(rt, b"&", &[])?;
    on_m(rt, b"EX[req]&T", &[])?;
    on_m(rt, b"EX[req&ack", &[])?;
    on_m(rt, b"EG T", &[])?;
    on_m(rt, b"AF T", &[])?;
    on_m(rt, b"E F T", &[])
}

// A name that the table lacks, by its offset in the line as typed; one node too many, written out.
pub fn short_forms_refused_on_m(rt: &impl Print) -> io::Result<()> {
    on_m(rt, b"AG ~EX[a] T", &[])?;
    on_m(rt, b"T&T&T&T&T&T&T&T&T", &[])
}
