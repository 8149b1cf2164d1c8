// Text to standard output; what `explain` answered, as text.
use explaining::explained::Explained;
use explanations::sizes::{EDGES_LENGTH, ROWS_LENGTH, TEXT_LENGTH};
use listing_text::{write_listing, write_refusal};
use replies::Answer;
use std::io;

fn print_start(rt: &impl Print, text: &[u8], end: usize) -> io::Result<()> {
    if end <= text.len() {
        return rt.write_all(&text[..end]);
    }
    Ok(())
}

// Counts above what was lent are no answer of `explain`; nothing is written of such.
fn write_explained(
    explained: Explained,
    rows: &[u8; ROWS_LENGTH],
    edges: &[u8; EDGES_LENGTH],
    out: &mut [u8; TEXT_LENGTH],
) -> usize {
    if explained.rows > 1024 || explained.edges > 4096 {
        return 0;
    }
    write_listing(
        explained.verdict,
        explained.class,
        explained.rows as usize,
        explained.edges as usize,
        rows,
        edges,
        out,
    )
}

// Writes the listing or the refusal's line at the start of `out`, and answers its length.
fn write_reply(
    reply: Result<Explained, Answer>,
    rows: &[u8; ROWS_LENGTH],
    edges: &[u8; EDGES_LENGTH],
    out: &mut [u8; TEXT_LENGTH],
) -> usize {
    match reply {
        Ok(explained) => write_explained(explained, rows, edges, out),
        Err(refused) => write_refusal(refused.number, refused.figure, out),
    }
}

pub fn print_reply(
    rt: &impl Print,
    reply: Result<Explained, Answer>,
    rows: &[u8; ROWS_LENGTH],
    edges: &[u8; EDGES_LENGTH],
    out: &mut [u8; TEXT_LENGTH],
) -> io::Result<()> {
    let end = write_reply(reply, rows, edges, out);
    print_start(rt, out, end)
}
