// Runs a table of contract texts through the checker: each line of the input is a text in hexadecimal, each line of the
// output its answer, the fault or the listing with its lines joined by '|'. A line that begins with '#' names what follows.
#![tactic(auto)]

#[cfg(test)]
mod tests;

use contracts::check::check;
use listing::accepted::list_contracts;
use listing::shown::OneLine;
use listing::table::decoded;
use std::alloc::{AllocError, Global};
use words::fault::Report;

// The answer to a text on one line.
fn answer(heap: Global, text: &[u8]) -> Result<String, AllocError> {
    match check(text) {
        Ok(set) => OneLine(list_contracts(heap, &set)?.as_str()).to_string(heap),
        Err(fault) => Report::from(fault).to_string(heap),
    }
}

fn main(rt: HostRuntime) -> anyhow::Result<()> {
    let heap = rt.alloc();
    for line in rt.lines(heap) {
        let line = line?;
        if line.as_str().starts_with('#') {
            rt.println(line)?;
        } else {
            let text = decoded(heap, line.as_str())?;
            rt.println(answer(heap, text.as_slice())?)?;
        }
    }
    Ok(())
}
