// The scope's bench sheet and the lines of later requests, run: for each line the table's name and the formula, the listing or the refusal, and the answers for some words.
#![tactic(auto)]

mod asking;
mod sheet;
mod writing;

use std::io;

fn main(rt: HostRuntime) -> io::Result<()> {
    sheet::explained_on_m(&rt)?;
    sheet::refused_on_m(&rt)?;
    sheet::negations_on_m(&rt)?;
    sheet::on_one_state(&rt)?;
    sheet::on_loops(&rt)?;
    sheet::short_forms_on_m(&rt)?;
    sheet::short_forms_without_class_on_m(&rt)?;
    sheet::short_forms_cut_on_m(&rt)?;
    sheet::short_forms_spoilt_on_m(&rt)?;
    sheet::short_forms_refused_on_m(&rt)
}
