// The checker of contract files: from a text to an accepted set, or the fault that is first by the rules.
ghost use Rattle.std.specs.Prelude.{◌≡◌, true, List, is_ok};
ghost use Rattle.syntax.specs.Trees.{ContractTree, parts_of};
ghost use Rattle.contracts.specs.Checks.{Checked, ReadAs};
ghost use Rattle.contracts.specs.Judgement.{Keeps};

use crate::fault::RuleFault;
use crate::judge::judge;
use crate::set::ContractSet;
use syntax::read_contracts;

/// The set of contracts that a text spells, or the fault that is first by the rules: 2; then the first spot from the left
/// where one of 3 to 7 holds, by the lowest number there; then 8 to 14 in turn, each in the order of the text.
pub fn check(text: &[u8]) -> Result<ContractSet, RuleFault>
    ensures answer { Checked text.now result }
    ensures exact { (cs : List ContractTree) → ReadAs text.now cs → Keeps (parts_of cs) → is_ok result ≡ true }
{
    let tree = read_contracts(text)?;
    judge(&tree)
}
