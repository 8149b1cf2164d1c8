// What the program `explain` writes for its two files. They may be of any length: of the table 20,322 bytes are enough, of the formula
// what crate `files` keeps.
#![tactic(auto)]

ghost use Rattle.explanations.specs.inner.Printed.{TextWritten};
ghost use Rattle.explaining.specs.Replies.{explain_reply};
ghost use Rattle.files.specs.inner.Files.{files_text};
ghost use Rattle.files.specs.inner.Writing.{reply_text, Few, PrefixLength};
ghost use Rattle.explained_text.specs.inner.Replied.{Replied};

use actl::sizes::FORMULA_LENGTH;
use explaining::explain;
use explaining::explained::Explained;
use explanations::sizes::{EDGES_LENGTH, KEPT, ROWS_LENGTH, TEXT_LENGTH};
use files::{Scanned, kept_text, text_length, write_refused};
use listing_text::write_listing;
use lts::sizes::TABLE_LENGTH;
use replies::Answer;

fn write_reply(
    reply: Result<Explained, Answer>,
    length: usize,
    rows: &[u8; ROWS_LENGTH],
    edges: &[u8; EDGES_LENGTH],
    out: &mut [u8; TEXT_LENGTH],
) -> usize
    requires { Few (explain_reply reply) }
    ensures text_written { TextWritten (reply_text (explain_reply reply) length rows.now edges.now)
        out.old out.new result }
    ensures prefix_length { PrefixLength result out.new }
{
    match reply {
        Ok(explained) => write_listing(
            explained.verdict,
            explained.class,
            explained.rows as usize,
            explained.edges as usize,
            rows,
            edges,
            out,
        ),
        Err(refused) => write_refused(refused.number, refused.figure, length, out),
    }
}

// Explains the table and the formula's text into places of the program's lengths.
fn explain_head(
    tablefile: &[u8],
    text: &[u8],
    rows: &mut [u8],
    edges: &mut [u8],
) -> Result<Explained, Answer>
    ensures { Replied tablefile.now text.now result
        rows.old rows.new edges.old edges.new }
{
    let mut table = [0u8; TABLE_LENGTH];
    let mut formula = [0u8; FORMULA_LENGTH];
    explain(tablefile, text, &mut table, &mut formula, rows, edges)
}

// Writes what the program writes at the start of `out`, and answers its length.
pub fn explain_files(
    tablefile: &[u8],
    head: &[u8; KEPT],
    scanned: Scanned,
    out: &mut [u8; TEXT_LENGTH],
) -> usize
    ensures text_written { TextWritten (files_text tablefile.now head.now scanned) out.old out.new result }
    ensures prefix_length { PrefixLength result out.new }
{
    let mut rows = [0u8; ROWS_LENGTH];
    let mut edges = [0u8; EDGES_LENGTH];
    let length = text_length(scanned);
    let text = kept_text(head, length);
    let reply = explain_head(tablefile, text, &mut rows, &mut edges);
    write_reply(reply, length, &rows, &edges, out)
}
