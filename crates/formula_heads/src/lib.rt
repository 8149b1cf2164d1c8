// Reading a keyword with its square bracket: its node, without the arm. A short form's node is that of what it stands for.
#![tactic(auto)]

ghost use Rattle.std.specs.Prelude.{◌≡◌, ◌≤◌, length, get_or};
ghost use Rattle.actl.specs.Sizes.{longest_text};
ghost use Rattle.lts.specs.inner.HoldsTable.{HoldsTable};
ghost use Rattle.actl.specs.inner.Reader.{second, third};
ghost use Rattle.actl.specs.inner.Readers.{names_in, ReaderStart, NoMark, NoLong, NoKeyword};
ghost use Rattle.formula_heads.specs.inner.HeadReplies.{HeadAnswer};
ghost use Rattle.formula_heads.specs.inner.Brackets.{quantifier_in, node_over, dual_of, ChoiceAnswer, NoShort, RestAnswer, behind_word, shown_word};
ghost use Rattle.formula_heads.specs.inner.Brackets.{NextAnswer, UntilAnswer, FirstSetAnswer, LabelledAnswer, LettersAnswer};

use formula_cursor::Cursor;
use formula_sets::{Source, all_labels, enclosed, set};
use formulas::node::{Condition, Node};

// Whether a keyword asks for some path or step, or for every one.
#[derive(Clone, Copy)]
enum Quantifier {
    Existential,
    Universal,
}

// A keyword with a bracket: EX or AX, EU, DIA or BOX.
#[derive(Clone, Copy)]
enum Keyword {
    Next(Quantifier),
    Until,
    Labelled(Quantifier),
}

// A keyword with its bracket, up to its end: its node, alone or between two `~`. `lost` is that of a set of labels.
#[derive(Clone, Copy)]
pub struct Heading {
    pub end: Cursor,
    pub node: Node,
    pub dual: bool,
    pub lost: usize,
}

// The node of EX or AX.
fn next_node(q: Quantifier, condition: Condition) -> Node
    ensures { result ≡ node_over q condition }
{
    match q {
        Quantifier::Existential => Node::Ex(condition),
        Quantifier::Universal => Node::Ax(condition),
    }
}

// 02: "`AG x` is `~EF ~x`" and "`BOX[A] x` is `~EX[A] ~x`"; EF and DIA are their nodes alone.
fn dual(q: Quantifier, end: Cursor, node: Node, lost: usize) -> Heading
    ensures { result ≡ dual_of q end node lost }
{
    let dual = match q {
        Quantifier::Existential => false,
        Quantifier::Universal => true,
    };
    Heading {
        end,
        node,
        dual,
        lost,
    }
}

// The step condition in the bracket of EX or AX, up to its end.
fn next(source: &Source, c: Cursor, q: Quantifier, lost: usize) -> Result<Heading, Cursor>
    requires { ReaderStart source.now.table.now source.now.text.now c.at }
    ensures { NextAnswer (names_in source.now.table.now) source.now.text.now q c.at lost result }
{
    if let Some(d) = c.token(source.text, b'.') {
        let end = d.mark(source.text, b']').ok_or(d)?;
        return Ok(Heading {
            end,
            node: next_node(q, Condition::Silent),
            dual: false,
            lost,
        });
    }
    let x = enclosed(source, c, b']', lost)?;
    Ok(Heading {
        end: x.end,
        node: next_node(q, Condition::Labels(x.mask)),
        dual: false,
        lost: x.lost,
    })
}

// Behind the first set of EU: the bracket's end, or a second set.
fn first_set(source: &Source, c: Cursor, first: u64, lost: usize) -> Result<Heading, Cursor>
    requires { HoldsTable source.now.table.now × (length source.now.text.now ≤ longest_text) }
    ensures { FirstSetAnswer (names_in source.now.table.now) source.now.text.now c.at first lost result }
{
    let Some(d) = c.token(source.text, b';') else {
        let end = c.mark(source.text, b']').ok_or(c)?;
        return Ok(Heading {
            end,
            node: Node::Until(first),
            dual: false,
            lost,
        });
    };
    let x = enclosed(source, d, b']', lost)?;
    Ok(Heading {
        end: x.end,
        node: Node::UntilThen(first, x.mask),
        dual: false,
        lost: x.lost,
    })
}

// The one set or the two in the bracket of EU, up to its end.
fn until(source: &Source, c: Cursor, lost: usize) -> Result<Heading, Cursor>
    requires { ReaderStart source.now.table.now source.now.text.now c.at }
    ensures { UntilAnswer (names_in source.now.table.now) source.now.text.now c.at lost result }
{
    let x = set(source, c, lost)?;
    first_set(source, x.end, x.mask, x.lost)
}

// The set in the bracket of DIA or BOX, up to its end. 02: "`DIA[A] x` is `EX[A] x`"
fn labelled(source: &Source, c: Cursor, q: Quantifier, lost: usize) -> Result<Heading, Cursor>
    requires { ReaderStart source.now.table.now source.now.text.now c.at }
    ensures { LabelledAnswer (names_in source.now.table.now) source.now.text.now q c.at lost result }
{
    let x = enclosed(source, c, b']', lost)?;
    Ok(dual(q, x.end, Node::Ex(Condition::Labels(x.mask)), x.lost))
}

// The bracket behind a keyword.
fn square_bracket(source: &Source, c: Cursor, word: Keyword, lost: usize) -> Result<Heading, Cursor>
    requires { HoldsTable source.now.table.now × (length source.now.text.now ≤ longest_text) × (c.at ≤ length source.now.text.now) }
    ensures { RestAnswer (names_in source.now.table.now) source.now.text.now (behind_word word 0) (shown_word word) c.at lost result }
{
    let o = c.skip_blanks(source.text);
    let d = o.token(source.text, b'[').ok_or(o)?;
    match word {
        Keyword::Next(q) => next(source, d, q, lost),
        Keyword::Until => until(source, d, lost),
        Keyword::Labelled(q) => labelled(source, d, q, lost),
    }
}

// The rest of DIA or BOX behind its first letter.
fn letters(
    source: &Source,
    c: Cursor,
    q: Quantifier,
    rest: &[u8; 2],
    lost: usize,
) -> Result<Heading, Cursor>
    requires holds_table { HoldsTable source.now.table.now × (length source.now.text.now ≤ longest_text) × (c.at ≤ length source.now.text.now) }
    requires rest_value { (get_or rest.now 0 0 ≡ second (quantifier_in q)) × (get_or rest.now 1 0 ≡ third (quantifier_in q)) }
    ensures { LettersAnswer (names_in source.now.table.now) source.now.text.now q c.at lost result }
{
    let d = c.mark(source.text, rest[0]).ok_or(c)?;
    let e = d.mark(source.text, rest[1]).ok_or(d)?;
    square_bracket(source, e, Keyword::Labelled(q), lost)
}

// The first letter of a keyword is a beginning of some text, whatever follows.
fn no_keyword(text: &[u8], c: Cursor) -> Cursor
    ensures { NoKeyword text.now c.at result.at }
{
    if let Some(d) = c.mark(text, b'E') {
        return d;
    }
    c.mark(text, b'A').unwrap_or(c)
}

// The keyword that asks for some path or step, or the one that asks for every.
fn either(text: &[u8], c: Cursor, some: &[u8; 2], every: &[u8; 2]) -> Option<(Quantifier, Cursor)>
    ensures { ChoiceAnswer text.now c.at some.now every.now result }
{
    if let Some(d) = c.keyword(text, some) {
        return Some((Quantifier::Existential, d));
    }
    let d = c.keyword(text, every)?;
    Some((Quantifier::Universal, d))
}

// DIA or BOX.
fn labelled_form(source: &Source, c: Cursor, lost: usize) -> Result<Heading, Cursor>
    requires { ReaderStart source.now.table.now source.now.text.now c.at × NoMark source.now.text.now c.at × NoLong source.now.text.now c.at × NoShort source.now.text.now c.at }
    ensures { HeadAnswer (names_in source.now.table.now) source.now.text.now c.at lost result }
{
    if let Some(d) = c.mark(source.text, b'D') {
        return letters(source, d, Quantifier::Existential, b"IA", lost);
    }
    if let Some(d) = c.mark(source.text, b'B') {
        return letters(source, d, Quantifier::Universal, b"OX", lost);
    }
    Err(no_keyword(source.text, c))
}

// 02: "`EF x` is `EU[*] x`, `AG x` is `~EF ~x`", DIA and BOX.
fn short_form(source: &Source, c: Cursor, lost: usize) -> Result<Heading, Cursor>
    requires { ReaderStart source.now.table.now source.now.text.now c.at × NoMark source.now.text.now c.at × NoLong source.now.text.now c.at }
    ensures { HeadAnswer (names_in source.now.table.now) source.now.text.now c.at lost result }
{
    if let Some((q, d)) = either(source.text, c, b"EF", b"AG") {
        return Ok(dual(q, d, Node::Until(all_labels(source.table)), lost));
    }
    labelled_form(source, c, lost)
}

// A keyword, with its square bracket if it has one.
pub fn head(source: &Source, c: Cursor, lost: usize) -> Result<Heading, Cursor>
    requires { ReaderStart source.now.table.now source.now.text.now c.at × NoMark source.now.text.now c.at }
    ensures { HeadAnswer (names_in source.now.table.now) source.now.text.now c.at lost result }
{
    if let Some((q, d)) = either(source.text, c, b"EX", b"AX") {
        return square_bracket(source, d, Keyword::Next(q), lost);
    }
    if let Some(d) = c.keyword(source.text, b"EU") {
        return square_bracket(source, d, Keyword::Until, lost);
    }
    short_form(source, c, lost)
}
