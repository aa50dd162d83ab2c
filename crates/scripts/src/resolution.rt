// The scripts of a file with numbers in place of names, or where the first name stands that is not declared.
ghost use Rattle.std.specs.Prelude.{◌≡◌, ◌≤◌, length, MatchResult};
ghost use Rattle.contracts.specs.View.{tables_in};
ghost use Rattle.script_syntax.specs.Trees.{process_of, processes_of};
ghost use Rattle.grammar.specs.Rows.{row_items};
ghost use Rattle.scripts.specs.Names.{Undeclared};
ghost use Rattle.scripts.specs.Places.{Earliest, FirstIn};
ghost use Rattle.scripts.specs.Scripts.{ScriptAs, script_of, ScriptsAs, scripts_of};

use crate::instruction::Instruction;
use crate::resolve::resolve;
use crate::script::Script;
use contracts::set::ContractSet;
use grammar::row::Row;
use script_syntax::tree::Process;
use words::fault::Span;
use words::name::Name;

// The script of a process.
fn script(contracts: &ContractSet, process: &Process) -> Result<Script, Span>
    ensures { MatchResult result (λ s. ScriptAs (tables_in contracts.now) (process_of process.now) (script_of s))
        (FirstIn (λ n i. Undeclared (tables_in contracts.now)) (process_of process.now).statements) }
{
    let mut instructions = Row::new(Instruction::End);
    for statement in process.statements.as_slice() {
        let next = resolve(contracts, *statement)?;
        let _ = instructions.push(next);
    }
    Ok(Script {
        name: process.ident.name,
        instructions,
    })
}

/// The scripts of these processes, or where the first name stands that is not declared in its family.
pub(crate) fn scripts(
    contracts: &ContractSet,
    processes: &[Process],
) -> Result<Row<Script, 8>, Span>
    requires { length processes.now ≤ 8 }
    ensures { MatchResult result (λ ss. ScriptsAs (tables_in contracts.now) (processes_of processes.now) (scripts_of (row_items ss)))
        (Earliest (λ n i. Undeclared (tables_in contracts.now)) (processes_of processes.now)) }
{
    let filler = Script {
        name: Name::copied(b""),
        instructions: Row::new(Instruction::End),
    };
    let mut all = Row::new(filler);
    for process in processes {
        let next = script(contracts, process)?;
        let _ = all.push(next);
    }
    Ok(all)
}
