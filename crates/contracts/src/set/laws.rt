// What holds of the contracts of every accepted set.
ghost use Rattle.std.specs.Prelude.{◌<◌};
ghost use Rattle.contracts.specs.Acceptance.{Each};
ghost use Rattle.contracts.specs.Laws.{Deterministic, Ranged, RowsWithin, SendStates, Together};
ghost use Rattle.contracts.specs.Rules.{Positional, Reachable, Synchronising};
ghost use Rattle.contracts.specs.Tables.{states};
ghost use Rattle.contracts.specs.View.{tables_in};

use super::ContractSet;

impl ContractSet {
    /// Does nothing: its contract has the laws of every accepted set, for those who build on one.
    pub fn laws(&self)
        ensures deterministic { Each Deterministic (tables_in self.now) }
        ensures ranged { Each Ranged (tables_in self.now) }
        ensures inhabited { Each (λ t. 0 < states t) (tables_in self.now) }
        ensures positional { Each Positional (tables_in self.now) }
        ensures reachable { Each Reachable (tables_in self.now) }
        ensures synchronising { Each Synchronising (tables_in self.now) }
        ensures rows_within_bound { Each RowsWithin (tables_in self.now) }
        ensures bounds_together { Each Together (tables_in self.now) }
        ensures send_states { Each (SendStates (tables_in self.now)) (tables_in self.now) }
    {}
}
