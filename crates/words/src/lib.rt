// Whether the automaton accepts a word: the positions that its letters reach, as a mask of places for each state. No rows are built.
#![tactic(auto)]

ghost use Rattle.std.specs.Prelude.{◌≡◌, ◌≤◌};
ghost use Rattle.actl.specs.Sizes.{most_nodes};
ghost use Rattle.lts.specs.Steps.{labels};
ghost use Rattle.lts.specs.inner.Prepared.{table_in};
ghost use Rattle.tables.specs.inner.Access.{found_in};
ghost use Rattle.lts.specs.inner.HoldsTable.{HoldsTable};
ghost use Rattle.actl.specs.inner.HoldsFormula.{HoldsFormula};
ghost use Rattle.words.specs.Replies.{word_reply};
ghost use Rattle.words.specs.declared.WordRefusal.{WordRefusal};
ghost use Rattle.automaton.specs.WordAsked.{is_bad, bad_letter, word_replied, WordAnswered};
ghost use Rattle.frontier.specs.inner.Reached.{final_place, some_final, Letters, AcceptsAnswer};
ghost use Rattle.words.specs.inner.Answered.{Answered};

use automaton::sizes::{LONGEST_WORD, MASKS_LENGTH, PLACES};
use bits::has;
use formula_check::inputs::{Unprepared, check_inputs};
use formula_classes::shape_of;
use lts::sizes::{FIRSTS, STEPS};
use table_steps::{fill_steps, is_silent};
use tables::prepared::{label_count, start_state};
use target_masks::{fill_masks, final_places};
use word_reading::read_word;

// Why `accepts` refuses. specs/Replies.antt lists the number and the figure of each case.
#[derive(Drop)]
pub enum WordRefusal {
    WordBad(usize),
    Unprepared(Unprepared),
}

impl From<Unprepared> for WordRefusal {
    ghost from_gives = { λ why refusal. refusal ≡ WordRefusal.Unprepared why };

    fn from(why: Unprepared) -> WordRefusal {
        WordRefusal::Unprepared(why)
    }
}

// 01: "a word's label above the label count". 02: "A word may hold 99". No other silent letter is above the count.
fn is_bad(labels: usize, letter: usize) -> bool
    ensures { result ≡ is_bad labels letter }
{
    labels < letter && !is_silent(letter)
}

// 01: "index of the first such label below 1,024, else 1,024"
fn bad_letter(labels: usize, word: &[u8]) -> Option<usize>
    ensures { found_in result ≡ bad_letter labels word.now }
{
    for i in 0..word.len() {
        if i == LONGEST_WORD {
            return Some(LONGEST_WORD);
        }
        if is_bad(labels, usize::from(word[i])) {
            return Some(i);
        }
    }
    None
}

fn is_final(finals: &[bool; PLACES], places: u64, k: usize) -> bool
    requires { k ≤ most_nodes }
    ensures { result ≡ final_place finals.now places k }
{
    has(places, k) && finals[k]
}

fn some_final(finals: &[bool; PLACES], places: u64) -> bool
    ensures { result ≡ some_final finals.now places }
{
    for k in 0..PLACES {
        if is_final(finals, places, k) {
            return true;
        }
    }
    false
}

// Whether the word leads from the root at the start state to a final position.
fn is_accepted(table: &[u8], formula: &[u8], word: &[u8]) -> bool
    requires holds_table { HoldsTable table.now }
    requires holds_formula { HoldsFormula (labels (table_in table.now)) formula.now }
    requires letters { Letters word.now }
    ensures { AcceptsAnswer table.now formula.now word.now result }
{
    let mut steps = [0u16; STEPS];
    let mut firsts = [0u16; FIRSTS];
    fill_steps(table, &mut steps, &mut firsts);
    let shape = shape_of(formula);
    let ends = shape.ends;
    let mut masks = [0u64; MASKS_LENGTH];
    fill_masks(formula, &ends, &mut masks);
    let finals = final_places(formula, &ends);
    let start = start_state(table);
    some_final(&finals, read_word(&steps, &firsts, &masks, start, word))
}

// Every letter is checked before the word is read.
fn answer(table: &[u8], formula: &[u8], word: &[u8]) -> Result<bool, WordRefusal>
    requires holds_table { HoldsTable table.now }
    requires holds_formula { HoldsFormula (labels (table_in table.now)) formula.now }
    ensures { Answered table.now formula.now word.now result }
{
    let bad = bad_letter(label_count(table), word);
    match bad {
        Some(i) => Err(WordRefusal::WordBad(i)),
        None => Ok(is_accepted(table, formula, word)),
    }
}

// 01: "A word (at most 1,024 label numbers), given with a prepared table and formula, is answered 1 if their automaton accepts it, else 0."
pub fn accepts(table: &[u8], formula: &[u8], word: &[u8]) -> Result<bool, WordRefusal>
    ensures result_value { word_reply result ≡ word_replied table.now formula.now word.now }
    ensures word_answered { WordAnswered table.now formula.now word.now (word_reply result) }
{
    check_inputs(table, formula)?;
    answer(table, formula, word)
}
