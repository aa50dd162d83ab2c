// The names of contracts, messages and states, and looking them up.
ghost use Rattle.contracts.specs.Families.{name_in, NameOf, size_in};
ghost use Rattle.contracts.specs.View.{Found, tables_in};

use super::ContractSet;
use super::family::Family;
use words::name::Name;

impl ContractSet {
    /// The i-th name of a family; none where it has no such name, or is of a contract that there is not.
    pub fn name(&self, family: Family, i: usize) -> Option<Name>
        ensures answer { NameOf (tables_in self.now) family i result }
    {
        match family {
            Family::Contracts => Some(self.table(i)?.declaration.name),
            Family::Messages(contract) => Some(self.message(contract, i)?.name),
            Family::States(contract) => self.table(contract)?.states().get(i).copied(),
        }
    }

    /// The first of a family that has this name; none where none has it, or the family is of a contract that there is not.
    pub fn find(&self, family: Family, name: Name) -> Option<usize>
        ensures answer { Found (size_in (tables_in self.now) family) (name_in (tables_in self.now) family) name result }
    {
        (0..16).find(|&i| self.name(family, i) == Some(name))
    }
}
