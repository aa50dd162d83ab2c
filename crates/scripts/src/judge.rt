// From the tree of a script file to its scripts, or the fault that is first by the rules.
ghost use Rattle.std.specs.Prelude.{IfOk};
ghost use Rattle.grammar.specs.Rows.{row_items};
ghost use Rattle.contracts.specs.View.{tables_in};
ghost use Rattle.script_syntax.specs.Trees.{Distinct, parts, Ranged};
ghost use Rattle.scripts.specs.Judgement.{Judged};
ghost use Rattle.scripts.specs.Runnable.{Sound};
ghost use Rattle.scripts.specs.Scripts.{scripts_of};

use crate::fault::ScriptFault;
use crate::jumps::Jumps;
use crate::payloads::Payloads;
use crate::resolution::scripts;
use crate::rule::earliest;
use crate::script::Script;
use contracts::set::ContractSet;
use grammar::row::Row;
use script_syntax::tree::Tree;

/// The scripts of a file, or the fault that is first by the rules: 8, then 15, then 16, each in the order of the text.
pub(crate) fn judge(tree: &Tree, contracts: &ContractSet) -> Result<Row<Script, 8>, ScriptFault>
    requires ranged { Ranged (parts tree.now) }
    requires distinct { Distinct (parts tree.now) }
    ensures answer { Judged (tables_in contracts.now) (parts tree.now) result }
    ensures sound { IfOk result (λ row. Sound (tables_in contracts.now) (scripts_of (row_items row))) }
{
    let processes = tree.processes();
    // With `map_err` the clause of `judge` did not close.
    let all = match scripts(contracts, processes) {
        Ok(all) => all,
        Err(span) => return Err(ScriptFault::Undeclared(span)),
    };
    if let Some(span) = earliest(&Payloads { contracts }, processes) {
        return Err(ScriptFault::WrongPayload(span));
    }
    if let Some(span) = earliest(&Jumps, processes) {
        return Err(ScriptFault::JumpOutside(span));
    }
    Ok(all)
}
