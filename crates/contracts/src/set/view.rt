// What an accepted set answers about its contracts.
ghost use Rattle.std.specs.Prelude.{◌≡◌, ◌<◌, ◌≤◌, length, MatchOption};
ghost use Rattle.contracts.specs.Tables.{message_at, messages, table_at};
ghost use Rattle.contracts.specs.View.{OfPart, tables_in, target_at};

use super::ContractSet;
use crate::contract::Contract;
use crate::declaration::Message;
use crate::table::Table;

impl ContractSet {
    /// How many contracts there are: 1 to 8.
    pub fn contract_count(&self) -> usize
        ensures answer { result ≡ length (tables_in self.now) }
        ensures some { 0 < result }
        ensures few { result ≤ 8 }
    {
        self.contracts.as_slice().len()
    }

    // The contract with this number; none where there is no such contract.
    pub(super) fn contract(&self, contract: usize) -> Option<&Contract>
        ensures { MatchOption result (length (tables_in self.now) ≤ contract)
            (λ k. (contract < length (tables_in self.now)) × (k.now.table ≡ table_at (tables_in self.now) contract)) }
    {
        self.contracts.as_slice().get(contract)
    }

    // Its table.
    pub(super) fn table(&self, contract: usize) -> Option<&Table>
        ensures { MatchOption result (length (tables_in self.now) ≤ contract)
            (λ t. (contract < length (tables_in self.now)) × (t.now ≡ table_at (tables_in self.now) contract)) }
    {
        Some(self.contract(contract)?.table())
    }

    /// A message of a contract; none where there is no such contract or message.
    pub fn message(&self, contract: usize, m: usize) -> Option<Message>
        ensures answer { OfPart (tables_in self.now) contract (messages (table_at (tables_in self.now) contract)) m (message_at (table_at (tables_in self.now) contract) m) result }
    {
        self.table(contract)?.messages().get(m).copied()
    }

    /// Where a state of a contract goes by a message; none where it has no such move, or there is no such contract, state or
    /// message.
    pub fn target(&self, contract: usize, s: usize, m: usize) -> Option<u8>
        ensures answer { result ≡ target_at (table_at (tables_in self.now) contract) s m }
    {
        self.table(contract)?.target(s, m)
    }
}
