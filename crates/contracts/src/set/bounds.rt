// How many messages an end can have waiting: the longest one-way paths of each contract.
ghost use Rattle.contracts.specs.Laws.{TogetherOf};
ghost use Rattle.contracts.specs.View.{BoundOf, tables_in};

use super::ContractSet;
use syntax::tree::Mark;

impl ContractSet {
    /// The most messages with this mark that can be sent one after the other with none of the other mark between them, at
    /// most 15: some one-way path has so many moves, and none has more. The two bounds of a contract are together at most 16.
    /// None where there is no such contract.
    pub fn bound(&self, contract: usize, mark: Mark) -> Option<u8>
        ensures answer { BoundOf (tables_in self.now) contract mark result }
        ensures together { TogetherOf (tables_in self.now) contract mark result }
    {
        Some(self.contract(contract)?.bound(mark))
    }
}
