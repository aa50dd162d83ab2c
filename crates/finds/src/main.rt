// `finds check CONTRACTS` tries a contract file; `finds help` says how to call the program.
#![tactic(auto)]

use anyhow::bail;
use contracts::check::check;
use listing::accepted::list_contracts;
use listing::refused::explain;
use std::{env, fs};

const HELP: &str =
    "finds check CONTRACTS   tries the contracts and prints what was accepted, or the refusal\nfinds help              prints this\n";

// Tries a contract file, and prints the accepted set or the refusal.
fn check_file(rt: &HostRuntime, path: &str) -> anyhow::Result<()> {
    let heap = rt.alloc();
    let Ok(text) = fs::read(rt, path) else {
        println!(rt; "cannot read {path}")?;
        bail!("a file cannot be read");
    };
    match check(text.as_slice()) {
        Ok(set) => {
            rt.print(list_contracts(heap, &set)?)?;
            Ok(())
        }
        Err(fault) => {
            rt.print(explain(heap, path, text.as_slice(), fault.into())?)?;
            bail!("the contracts are refused")
        }
    }
}

fn main(rt: HostRuntime) -> anyhow::Result<()> {
    let words = env::args(&rt)?.collect::<Vec<String>>(rt.alloc())?;
    match words.as_slice() {
        [_, command, path] if command.as_str() == "check" => check_file(&rt, path.as_str()),
        [_, command] if command.as_str() == "help" => {
            rt.print(HELP)?;
            Ok(())
        }
        _ => {
            rt.print(HELP)?;
            bail!("no such command")
        }
    }
}
