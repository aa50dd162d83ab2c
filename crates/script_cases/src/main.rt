// Runs a table of scripts through the checkers: each line of the input is a contract text in hexadecimal, a blank, and a
// script text. Each line of the output is the answer, the fault or the listing with its lines joined by '|'. A line that begins
// with '#' names what follows.
#![tactic(auto)]

use contracts::check::check;
use listing::accepted::list_contracts;
use listing::shown::OneLine;
use listing::table::decoded;
use script_listing::accepted::list_scripts;
use scripts::check::check as check_scripts;
use scripts::set::ScriptSet;
use std::alloc::{AllocError, Global};
use words::fault::Report;

// The set of scripts that both texts spell, or the fault that is first.
fn check_both(text: &[u8], script: &[u8]) -> Result<ScriptSet, Report> {
    let contracts = check(text)?;
    check_scripts(script, contracts).map_err(|refusal| Report::from(refusal.fault))
}

// The answer to a contract text and a script text on one line.
fn answer(heap: Global, text: &[u8], script: &[u8]) -> Result<String, AllocError> {
    match check_both(text, script) {
        Ok(set) => {
            let contracts = list_contracts(heap, set.contracts())?;
            let scripts = list_scripts(heap, &set)?;
            let contracts = OneLine(contracts.as_str());
            let scripts = OneLine(scripts.as_str());
            format!(in heap; "{contracts}{scripts}")
        }
        Err(report) => report.to_string(heap),
    }
}

// The answer to a line of the input.
fn answer_line(heap: Global, line: &str) -> Result<String, AllocError> {
    let mut texts = line.split(' ');
    let text = decoded(heap, texts.next().unwrap_or(""))?;
    let script = decoded(heap, texts.next().unwrap_or(""))?;
    answer(heap, text.as_slice(), script.as_slice())
}

// As in `cases`: one function for both would take the runtime and a closure, and be no shorter.
fn main(rt: HostRuntime) -> anyhow::Result<()> {
    let heap = rt.alloc();
    for line in rt.lines(heap) {
        let line = line?;
        if line.as_str().starts_with('#') {
            rt.println(line)?;
        } else {
            rt.println(answer_line(heap, line.as_str())?)?;
        }
    }
    Ok(())
}
