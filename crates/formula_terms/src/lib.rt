// Reading a formula's text: the readers of terms, brackets and formulas call each other, each from a cursor to the cursor behind what it
// read. What they make of it: the nodes of the text written out, in preorder, stored as in a prepared formula, and the first name that the table lacks.
#![tactic(auto)]

ghost use Rattle.std.specs.Prelude.{◌≡◌, ◌≤◌, length};
ghost use Rattle.actl.specs.Sizes.{longest_text, formula_length};
ghost use Rattle.lts.specs.inner.HoldsTable.{HoldsTable};
ghost use Rattle.lts.specs.inner.Answers.{Decides};
ghost use Rattle.actl.specs.inner.Readers.{names_in, ReaderStart, NoMark};
ghost use Rattle.actl.specs.inner.NodeBytes.{NodeRoom};
ghost use Rattle.formula_terms.specs.inner.TermReplies.{TermAnswer, BracketAnswer, FormulaAnswer, ReadingAnswer};
ghost use Rattle.formula_terms.specs.inner.Prefixes.{PrefixAnswer, NoAtom, Atom, PrefixesAnswer};

use actl::sizes::FORMULA_LENGTH;
use formula_cursor::Cursor;
use formula_heads::head;
use formula_nodes::{conjoin, disjoin, put, put_dual};
use formula_sets::Source;
use formulas::node::Node;

// The bytes of a prepared formula, with a slot for each node.
type Slots = [u8; FORMULA_LENGTH];

// The end of a term, or of what stands before one, how many nodes there are behind it, and the first name so far that the table lacks.
#[derive(Clone, Copy)]
struct Nodes {
    end: Cursor,
    count: usize,
    lost: usize,
}

// A formula's end, the end of the blanks behind it, how many nodes there are, and the first name so far that the table lacks.
#[derive(Clone, Copy)]
struct Chain {
    end: Cursor,
    behind: Cursor,
    count: usize,
    lost: usize,
}

// A whole text: how many nodes it has, and the first name that the table lacks, as in a `LabelSet`.
#[derive(Clone, Copy)]
pub struct Whole {
    pub count: usize,
    pub lost: usize,
}

// A keyword with its square bracket, the blanks behind it, and its nodes.
fn keyword(
    source: &Source,
    nodes: &mut Slots,
    c: Cursor,
    n: usize,
    lost: usize,
) -> Result<Nodes, Cursor>
    requires { ReaderStart source.now.table.now source.now.text.now c.at × NodeRoom nodes.old c.at n × NoMark source.now.text.now c.at }
    ensures { PrefixAnswer (names_in source.now.table.now) source.now.text.now c.at n lost nodes.old nodes.new result }
{
    let x = head(source, c, lost)?;
    let end = x.end.skip_blanks(source.text);
    if x.dual {
        put_dual(nodes, n, x.node);
        return Ok(Nodes {
            end,
            count: n + 3,
            lost: x.lost,
        });
    }
    put(nodes, n, x.node);
    Ok(Nodes {
        end,
        count: n + 1,
        lost: x.lost,
    })
}

// What stands before a term: `~`, or a keyword with its square bracket.
fn prefix(
    source: &Source,
    nodes: &mut Slots,
    c: Cursor,
    n: usize,
    lost: usize,
) -> Result<Nodes, Cursor>
    requires { ReaderStart source.now.table.now source.now.text.now c.at × NodeRoom nodes.old c.at n × NoAtom source.now.text.now c.at }
    ensures { PrefixAnswer (names_in source.now.table.now) source.now.text.now c.at n lost nodes.old nodes.new result }
{
    if let Some(end) = c.token(source.text, b'~') {
        put(nodes, n, Node::Not);
        return Ok(Nodes {
            end,
            count: n + 1,
            lost,
        });
    }
    keyword(source, nodes, c, n, lost)
}

// Whether `T` or `(` stands here.
fn at_atom(text: &[u8], c: Cursor) -> bool
    ensures { Decides (Atom text.now c.at) result }
{
    c.mark(text, b'T').is_some() || c.mark(text, b'(').is_some()
}

// All that stands before a `T` or a `(`, by a loop: prefixes within each other take no frames.
fn further(
    source: &Source,
    nodes: &mut Slots,
    c: Cursor,
    n: usize,
    lost: usize,
) -> Result<Nodes, Cursor>
    requires { ReaderStart source.now.table.now source.now.text.now c.at × NodeRoom nodes.old c.at n }
    ensures { PrefixesAnswer (names_in source.now.table.now) source.now.text.now c.at n lost nodes.old nodes.new result }
{
    let mut x = Nodes {
        end: c,
        count: n,
        lost,
    };
    while !at_atom(source.text, x.end) {
        x = prefix(source, nodes, x.end, x.count, x.lost)?;
    }
    Ok(x)
}

// The same. The first prefix is read here and the others there: `prefix`, called from two places, keeps its locals out of the frames of brackets.
fn prefixes(
    source: &Source,
    nodes: &mut Slots,
    c: Cursor,
    n: usize,
    lost: usize,
) -> Result<Nodes, Cursor>
    requires { ReaderStart source.now.table.now source.now.text.now c.at × NodeRoom nodes.old c.at n }
    ensures { PrefixesAnswer (names_in source.now.table.now) source.now.text.now c.at n lost nodes.old nodes.new result }
{
    if at_atom(source.text, c) {
        return Ok(Nodes {
            end: c,
            count: n,
            lost,
        });
    }
    let x = prefix(source, nodes, c, n, lost)?;
    further(source, nodes, x.end, x.count, x.lost)
}

// 01: "A term is `T`, `~` and a term, a keyword with its square bracket and a term, or a formula in round brackets."
#[cycle(bracket_formula_term)]
fn term(
    source: &Source,
    nodes: &mut Slots,
    c: Cursor,
    n: usize,
    lost: usize,
) -> Result<Nodes, Cursor>
    requires { ReaderStart source.now.table.now source.now.text.now c.at × NodeRoom nodes.old c.at n }
    ensures { TermAnswer (names_in source.now.table.now) source.now.text.now c.at n lost nodes.old nodes.new result }
{
    let x = prefixes(source, nodes, c, n, lost)?;
    if let Some(d) = x.end.token(source.text, b'(') {
        return bracket(source, nodes, d, x.count, x.lost);
    }
    // Not by `ok_or`: with it, here and in `bracket`, the frame of `formula` is 16 bytes longer.
    let Some(end) = x.end.mark(source.text, b'T') else {
        return Err(x.end);
    };
    put(nodes, x.count, Node::True);
    Ok(Nodes {
        end,
        count: x.count + 1,
        lost: x.lost,
    })
}

// 01: "A bracket holds a whole formula again." From behind `(` to behind `)`.
#[cycle(bracket_formula_term)]
fn bracket(
    source: &Source,
    nodes: &mut Slots,
    c: Cursor,
    n: usize,
    lost: usize,
) -> Result<Nodes, Cursor>
    requires { ReaderStart source.now.table.now source.now.text.now c.at × NodeRoom nodes.old c.at n }
    ensures { BracketAnswer (names_in source.now.table.now) source.now.text.now c.at n lost nodes.old nodes.new result }
{
    let x = formula(source, nodes, c, n, lost)?;
    let Some(end) = x.behind.mark(source.text, b')') else {
        return Err(x.behind);
    };
    Ok(Nodes {
        end,
        count: x.count,
        lost: x.lost,
    })
}

// 01: "A formula is one or more terms joined by `|`, grouped from the left." 02: "`&` binds tighter than `|`; both group from the left": `&` joins
// what stands from the first node of the last conjunction on, `|` all from the formula's. It is read with the blanks behind it.
#[cycle(bracket_formula_term)]
fn formula(
    source: &Source,
    nodes: &mut Slots,
    c: Cursor,
    n: usize,
    lost: usize,
) -> Result<Chain, Cursor>
    requires { ReaderStart source.now.table.now source.now.text.now c.at × NodeRoom nodes.old c.at n }
    ensures { FormulaAnswer (names_in source.now.table.now) source.now.text.now c.at n lost nodes.old nodes.new result }
{
    let mut d = c;
    let mut start = n;
    let mut k = n;
    let mut lacks = lost;
    loop {
        let x = term(source, nodes, d, k, lacks)?;
        let behind = x.end.skip_blanks(source.text);
        lacks = x.lost;
        if let Some(e) = behind.token(source.text, b'&') {
            conjoin(nodes, start, x.count);
            d = e;
            k = x.count + 4;
        } else {
            let Some(e) = behind.token(source.text, b'|') else {
                return Ok(Chain {
                    end: x.end,
                    behind,
                    count: x.count,
                    lost: x.lost,
                });
            };
            disjoin(nodes, n, x.count);
            d = e;
            start = x.count + 1;
            k = x.count + 1;
        }
    }
}

// A whole text of at most 512 bytes; or the length of its longest viable beginning.
pub fn read_text(
    table: &[u8],
    text: &[u8],
    nodes: &mut [u8; FORMULA_LENGTH],
) -> Result<Whole, usize>
    requires { HoldsTable table.now × (length text.now ≤ longest_text) × (length nodes.old ≡ formula_length) }
    ensures { ReadingAnswer (names_in table.now) text.now nodes.old nodes.new result }
{
    let c = Cursor { at: 0 };
    if c.mark(text, b' ').is_some() {
        return Err(0);
    }
    let x = match formula(&Source { table, text }, nodes, c, 0, 0) {
        Ok(x) => x,
        Err(e) => return Err(e.at),
    };
    if x.end.at == text.len() {
        Ok(Whole {
            count: x.count,
            lost: x.lost,
        })
    } else {
        Err(x.behind.at)
    }
}
