// What integrators call: the entries together, as C functions. The static library has the name of this crate.
#![tactic(auto)]

pub use crate::exports::{
    explainer_accepts, explainer_build, explainer_explain, explainer_read_formula,
    explainer_read_table, explainer_smallest, explainer_verdict, explainer_verdicts,
    explainer_write_formula,
};

mod exports;
