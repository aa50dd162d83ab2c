// Makes a list of calls, one a line, over both carriers, and prints each with the answer of the chained and of the
// copying one.
#![tactic(auto)]

mod answer;
mod call;
#[cfg(test)]
mod tests;

use answer::{Outcome, make};
use call::Call;
use carriers::copying::Copying;
use chained::chained::Chained;

fn main(rt: HostRuntime) -> anyhow::Result<()> {
    let heap = rt.alloc();
    let mut chained = Chained::new();
    let mut copying = Copying::new();
    for line in rt.lines(heap) {
        let line = line?;
        match line.parse::<Call>() {
            Ok(call) => {
                let first = Outcome(make(&mut chained, call));
                let second = Outcome(make(&mut copying, call));
                println!(rt; "{line} -> {first}, {second}")?;
            }
            Err(e) => println!(rt; "{line} -> {e}")?,
        }
    }
    Ok(())
}
