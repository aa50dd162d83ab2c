// A script file that is refused.
use crate::fault::ScriptFault;
use contracts::set::ContractSet;

/// Why a script file is refused, with the contract set that it was read against, handed back.
#[derive(Clone, Copy)]
pub struct Refusal {
    pub fault: ScriptFault,
    pub contracts: ContractSet,
}
