// The C interface. explainer.h declares these functions.
ghost use Rattle.std.specs.Prelude.{◌≡◌};
ghost use Rattle.lts.specs.TableReading.{table_replied, table_left};
ghost use Rattle.actl.specs.FormulaReading.{formula_replied, formula_left};
ghost use Rattle.satisfaction.specs.VerdictAsked.{verdict_replied};
ghost use Rattle.starts.specs.VerdictsAsked.{verdicts_replied, verdicts_left};
ghost use Rattle.automaton.specs.Build.{build_replied, rows_left, edges_left};
ghost use Rattle.automaton.specs.WordAsked.{word_replied};
ghost use Rattle.deterministic.specs.SmallestAsked.{smallest_replied, smallest_rows, smallest_edges, smallest_left, smallest_work};
ghost use Rattle.written_back.specs.FormulaWriting.{formula_written, text_left};
ghost use Rattle.write_table.specs.TableWriting.{table_written, table_text_left};
ghost use Rattle.side_by_side.specs.Combining.{combine_replied, combined_left};
ghost use Rattle.replies.specs.Interface.{number_in, figure_in, edges_in};
ghost use Rattle.explanations.specs.Explanation.{explaining};
ghost use Rattle.explainer.specs.Interface.{Returned, Promised};

use building::build;
use combine::combine;
use explaining::explain;
use explaining::explained::{Values, explain_answer, explain_values};
use formula_text::read_formula;
use labelling::verdict;
use replies::{
    build_answer, build_edges, formula_answer, table_answer, verdict_answer, verdicts_answer,
    word_answer,
};
use smallest::smallest;
use smallest_replies::{smallest_answer, smallest_edges};
use table_text::read_table;
use verdicts::verdicts;
use words::accepts;
use write_formula::write_formula;
use writing_replies::{combine_answer, text_answer, write_answer};

#[unsafe(no_mangle)]
pub extern "C" fn explainer_read_table(text: &[u8], table: &mut [u8], figure: &mut u64) -> u32
    ensures value { result ≡ number_in (table_replied text.now table.old) }
    ensures table_after { table.new ≡ table_left text.now table.old }
    ensures figure_after { figure.new ≡ figure_in (λ _. 0) (table_replied text.now table.old) }
{
    let answer = table_answer(read_table(text, table));
    *figure = answer.figure;
    answer.number
}

#[unsafe(no_mangle)]
pub extern "C" fn explainer_table_text(table: &[u8], text: &mut [u8], figure: &mut u64) -> u32
    ensures value { result ≡ number_in (table_written table.now text.old) }
    ensures text_after { text.new ≡ table_text_left table.now text.old }
    ensures figure_after { figure.new ≡ figure_in (λ length. length) (table_written table.now text.old) }
{
    let answer = text_answer(write_table::table_text(table, text));
    *figure = answer.figure;
    answer.number
}

#[unsafe(no_mangle)]
pub extern "C" fn explainer_combine(
    first: &[u8],
    second: &[u8],
    combined: &mut [u8],
    figure: &mut u64,
) -> u32
    ensures value { result ≡ number_in (combine_replied first.now second.now combined.old) }
    ensures combined_after { combined.new ≡ combined_left first.now second.now combined.old }
    ensures figure_after { figure.new ≡ figure_in (λ _. 0)
        (combine_replied first.now second.now combined.old) }
{
    let answer = combine_answer(combine(first, second, combined));
    *figure = answer.figure;
    answer.number
}

#[unsafe(no_mangle)]
pub extern "C" fn explainer_read_formula(
    table: &[u8],
    text: &[u8],
    formula: &mut [u8],
    figure: &mut u64,
) -> u32
    ensures value { result ≡ number_in (formula_replied table.now text.now formula.old) }
    ensures formula_after { formula.new ≡ formula_left table.now text.now formula.old }
    ensures figure_after { figure.new ≡ figure_in (λ _. 0)
        (formula_replied table.now text.now formula.old) }
{
    let answer = formula_answer(read_formula(table, text, formula));
    *figure = answer.figure;
    answer.number
}

#[unsafe(no_mangle)]
pub extern "C" fn explainer_verdict(table: &[u8], formula: &[u8], figure: &mut u64) -> u32
    ensures value { result ≡ number_in (verdict_replied table.now formula.now) }
    ensures figure_after { figure.new ≡ figure_in (λ holds. holds) (verdict_replied table.now formula.now) }
{
    let answer = verdict_answer(verdict(table, formula));
    *figure = answer.figure;
    answer.number
}

#[unsafe(no_mangle)]
pub extern "C" fn explainer_verdicts(
    table: &[u8],
    formula: &[u8],
    starts: &[u8],
    answers: &mut [u8],
    figure: &mut u64,
) -> u32
    ensures value { result ≡ number_in (verdicts_replied table.now formula.now starts.now answers.old) }
    ensures answers_after { answers.new ≡ verdicts_left table.now formula.now starts.now answers.old }
    ensures figure_after { figure.new ≡ figure_in (λ joint. joint)
        (verdicts_replied table.now formula.now starts.now answers.old) }
{
    let answer = verdicts_answer(verdicts(table, formula, starts, answers));
    *figure = answer.figure;
    answer.number
}

#[unsafe(no_mangle)]
pub extern "C" fn explainer_accepts(
    table: &[u8],
    formula: &[u8],
    word: &[u8],
    figure: &mut u64,
) -> u32
    ensures value { result ≡ number_in (word_replied table.now formula.now word.now) }
    ensures figure_after { figure.new ≡ figure_in (λ accepted. accepted)
        (word_replied table.now formula.now word.now) }
{
    let answer = word_answer(accepts(table, formula, word));
    *figure = answer.figure;
    answer.number
}

#[unsafe(no_mangle)]
pub extern "C" fn explainer_build(
    table: &[u8],
    formula: &[u8],
    rows: &mut [u8],
    edges: &mut [u8],
    figure: &mut u64,
    count: &mut u64,
) -> u32
    ensures value { result ≡ number_in (build_replied table.now formula.now rows.old edges.old) }
    ensures rows_after { rows.new ≡ rows_left table.now formula.now rows.old edges.old }
    ensures edges_after { edges.new ≡ edges_left table.now formula.now rows.old edges.old }
    ensures figure_after { figure.new ≡ figure_in (λ counts. counts.rows)
        (build_replied table.now formula.now rows.old edges.old) }
    ensures count_after { count.new ≡ edges_in count.old
        (build_replied table.now formula.now rows.old edges.old) }
{
    let reply = build(table, formula, rows, edges);
    let before = *count;
    let answer = build_answer(reply);
    *figure = answer.figure;
    *count = build_edges(reply, before);
    answer.number
}

#[unsafe(no_mangle)]
pub extern "C" fn explainer_smallest(
    table: &[u8],
    formula: &[u8],
    rows: &mut [u8],
    edges: &mut [u8],
    out: &mut [u8],
    work: &mut [u8],
    figure: &mut u64,
    count: &mut u64,
) -> u32
    ensures value { result ≡ number_in
        (smallest_replied table.now formula.now rows.old edges.old out.old work.old) }
    ensures rows_after { rows.new ≡
        smallest_rows table.now formula.now rows.old edges.old out.old work.old }
    ensures edges_after { edges.new ≡
        smallest_edges table.now formula.now rows.old edges.old out.old work.old }
    ensures out_after { out.new ≡
        smallest_left table.now formula.now rows.old edges.old out.old work.old }
    ensures work_after { work.new ≡
        smallest_work table.now formula.now rows.old edges.old out.old work.old }
    ensures figure_after { figure.new ≡ figure_in (λ counts. counts.rows)
        (smallest_replied table.now formula.now rows.old edges.old out.old work.old) }
    ensures count_after { count.new ≡ edges_in count.old
        (smallest_replied table.now formula.now rows.old edges.old out.old work.old) }
{
    let reply = smallest(table, formula, rows, edges, out, work);
    let before = *count;
    let answer = smallest_answer(reply);
    *figure = answer.figure;
    *count = smallest_edges(reply, before);
    answer.number
}

#[unsafe(no_mangle)]
pub extern "C" fn explainer_write_formula(
    table: &[u8],
    formula: &[u8],
    text: &mut [u8],
    figure: &mut u64,
) -> u32
    ensures value { result ≡ number_in (formula_written table.now formula.now text.old) }
    ensures text_after { text.new ≡ text_left table.now formula.now text.old }
    ensures figure_after { figure.new ≡ figure_in (λ length. length)
        (formula_written table.now formula.now text.old) }
{
    let answer = write_answer(write_formula(table, formula, text));
    *figure = answer.figure;
    answer.number
}

#[unsafe(no_mangle)]
pub extern "C" fn explainer_explain(
    tabletext: &[u8],
    formulatext: &[u8],
    table: &mut [u8],
    formula: &mut [u8],
    rows: &mut [u8],
    edges: &mut [u8],
    figure: &mut u64,
    holds: &mut u64,
    class: &mut u64,
    count: &mut u64,
) -> u32
    ensures returned { Returned (explaining tabletext.now formulatext.now
        table.old formula.old rows.old edges.old) result figure.new
        holds.old holds.new class.old class.new count.old count.new
        table.old table.new formula.old formula.new
        rows.old rows.new edges.old edges.new }
    ensures promised { Promised tabletext.now formulatext.now
        table.old table.new formula.old formula.new
        rows.old rows.new edges.old edges.new }
{
    let reply = explain(tabletext, formulatext, table, formula, rows, edges);
    let verdict_before = *holds;
    let class_before = *class;
    let edges_before = *count;
    let before = Values {
        verdict: verdict_before,
        class: class_before,
        edges: edges_before,
    };
    let answer = explain_answer(reply);
    let values = explain_values(reply, before);
    *figure = answer.figure;
    *holds = values.verdict;
    *class = values.class;
    *count = values.edges;
    answer.number
}
