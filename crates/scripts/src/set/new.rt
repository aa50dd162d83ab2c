// The making of accepted sets.
ghost use Rattle.std.specs.Prelude.{◌≡◌};
ghost use Rattle.grammar.specs.Rows.{row_items};
ghost use Rattle.contracts.specs.View.{tables_in};
ghost use Rattle.scripts.specs.Runnable.{Sound};
ghost use Rattle.scripts.specs.Scripts.{scripts_of};
ghost use Rattle.scripts.specs.View.{scripts_in};

use super::ScriptSet;
use crate::script::Script;
use contracts::set::ContractSet;
use grammar::row::Row;

impl ScriptSet {
    /// The set of these scripts, which keep the rules against this contract set.
    pub(crate) fn new(scripts: Row<Script, 8>, contracts: ContractSet) -> ScriptSet
        requires { Sound (tables_in contracts) (scripts_of (row_items scripts)) }
        ensures scripts { scripts_in result ≡ scripts_of (row_items scripts) }
        ensures contracts { result.contracts ≡ contracts }
    {
        ScriptSet { scripts, contracts }
    }
}
