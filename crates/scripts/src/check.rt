// The checker of script files: from a text to an accepted set, or the fault that is first by the rules.
ghost use Rattle.std.specs.Prelude.{◌≡◌, true, List, is_ok, IfOk};
ghost use Rattle.grammar.specs.Rows.{row_items};
ghost use Rattle.contracts.specs.View.{tables_in};
ghost use Rattle.script_syntax.specs.Grammar.{parts_of, ProcessTree};
ghost use Rattle.scripts.specs.Checks.{Checked, ReadAs, Spelt};
ghost use Rattle.scripts.specs.Judgement.{Keeps};
ghost use Rattle.scripts.specs.Runnable.{Sound};
ghost use Rattle.scripts.specs.Scripts.{scripts_of};

use crate::fault::ScriptFault;
use crate::judge::judge;
use crate::refusal::Refusal;
use crate::script::Script;
use crate::set::ScriptSet;
use contracts::set::ContractSet;
use grammar::row::Row;
use script_syntax::read_scripts;

// The scripts that a text spells, or the fault that is first by the rules.
fn spelt(text: &[u8], contracts: &ContractSet) -> Result<Row<Script, 8>, ScriptFault>
    ensures answer { Spelt text.now (tables_in contracts.now) result }
    ensures sound { IfOk result (λ row. Sound (tables_in contracts.now) (scripts_of (row_items row))) }
    ensures exact { (ps : List ProcessTree) → ReadAs text.now ps → Keeps (tables_in contracts.now) (parts_of ps) → is_ok result ≡ true }
{
    let tree = read_scripts(text)?;
    judge(&tree, contracts)
}

/// The set of scripts that a text spells against a contract set, or the fault that is first by the rules: 2; then the first
/// spot from the left where one of 3 to 7 holds, by the lowest number there; then 8, 15 and 16 in turn, each in the order of
/// the text. The set holds the contract set, and a refusal hands it back.
pub fn check(text: &[u8], contracts: ContractSet) -> Result<ScriptSet, Refusal>
    ensures answer { Checked text.now contracts result }
    ensures exact { (ps : List ProcessTree) → ReadAs text.now ps → Keeps (tables_in contracts) (parts_of ps) → is_ok result ≡ true }
{
    match spelt(text, &contracts) {
        Ok(scripts) => Ok(ScriptSet::new(scripts, contracts)),
        Err(fault) => Err(Refusal { fault, contracts }),
    }
}
