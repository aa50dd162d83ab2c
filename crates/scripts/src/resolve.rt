// Statements with numbers in place of names, or where the first name stands that is not declared.
ghost use Rattle.std.specs.Prelude.{◌<◌, ◌≤◌, length, MatchResult};
ghost use Rattle.contracts.specs.View.{tables_in};
ghost use Rattle.script_syntax.specs.declared.tree.Statement.TheVariants.{Case, Open, Pass, Send};
ghost use Rattle.scripts.specs.Names.{ContractOf, MessageOf, NoContract, NoMessage, NoPair, PairOf, ResolvedAs};

use crate::instruction::Instruction;
use contracts::set::ContractSet;
use contracts::set::family::Family;
use script_syntax::tree::{Distance, Statement};
use words::fault::{Source, Span};
use words::name::Ident;

// The contract of a name.
fn contract_of(contracts: &ContractSet, ident: Ident) -> Result<u8, Span>
    ensures { MatchResult result (ContractOf (tables_in contracts.now) ident) (NoContract (tables_in contracts.now) ident) }
{
    match contracts.find(Family::Contracts, ident.name) {
        Some(k) => Ok(k as u8),
        None => Err(ident.span(Source::Scripts)),
    }
}

// The message of a name among those of a contract.
fn message_of(contracts: &ContractSet, contract: u8, ident: Ident) -> Result<u8, Span>
    ensures { MatchResult result (MessageOf (tables_in contracts.now) contract ident) (NoMessage (tables_in contracts.now) contract ident) }
{
    match contracts.find(Family::Messages(contract as usize), ident.name) {
        Some(m) => Ok(m as u8),
        None => Err(ident.span(Source::Scripts)),
    }
}

/// The contract of one name, and its message of the other.
pub(crate) fn pair_of(
    contracts: &ContractSet,
    contract: Ident,
    message: Ident,
) -> Result<(u8, u8), Span>
    ensures { MatchResult result (λ v. PairOf (tables_in contracts.now) contract message v.0 v.1) (NoPair (tables_in contracts.now) contract message) }
{
    let k = contract_of(contracts, contract)?;
    let m = message_of(contracts, k, message)?;
    Ok((k, m))
}

// Each statement that has names is a function of its own: one `match` over all fields would be twice as long, and no plainer.

// `open` with numbers in place of names.
fn open(
    contracts: &ContractSet,
    contract: Ident,
    exporting: u8,
    importing: u8,
) -> Result<Instruction, Span>
    ensures { ResolvedAs (tables_in contracts.now) (Open contract exporting importing) result }
{
    let contract = contract_of(contracts, contract)?;
    Ok(Instruction::Open {
        contract,
        exporting,
        importing,
    })
}

// `send` with numbers in place of names.
fn send(
    contracts: &ContractSet,
    end: u8,
    contract: Ident,
    message: Ident,
) -> Result<Instruction, Span>
    ensures { ResolvedAs (tables_in contracts.now) (Send end contract message) result }
{
    let (contract, message) = pair_of(contracts, contract, message)?;
    Ok(Instruction::Send {
        end,
        contract,
        message,
    })
}

// `pass` with numbers in place of names.
fn pass(
    contracts: &ContractSet,
    end: u8,
    contract: Ident,
    message: Ident,
    payload: u8,
) -> Result<Instruction, Span>
    ensures { ResolvedAs (tables_in contracts.now) (Pass end contract message payload) result }
{
    let (contract, message) = pair_of(contracts, contract, message)?;
    Ok(Instruction::Pass {
        end,
        contract,
        message,
        payload,
    })
}

// `case` with numbers in place of names.
fn case(
    contracts: &ContractSet,
    contract: Ident,
    message: Ident,
    distance: Distance,
) -> Result<Instruction, Span>
    ensures { ResolvedAs (tables_in contracts.now) (Case contract message distance) result }
{
    let (contract, message) = pair_of(contracts, contract, message)?;
    Ok(Instruction::Case {
        contract,
        message,
        distance: distance.value,
    })
}

/// A statement with numbers in place of names, or where the first of its names stands that is not declared in its family.
pub(crate) fn resolve(contracts: &ContractSet, statement: Statement) -> Result<Instruction, Span>
    ensures { ResolvedAs (tables_in contracts.now) statement result }
{
    match statement {
        Statement::End => Ok(Instruction::End),
        Statement::New { register } => Ok(Instruction::New { register }),
        Statement::Put {
            register,
            place,
            byte,
        } => Ok(Instruction::Put {
            register,
            place,
            byte,
        }),
        Statement::Free { register } => Ok(Instruction::Free { register }),
        Statement::Open {
            contract,
            exporting,
            importing,
        } => open(contracts, contract, exporting, importing),
        Statement::Close { register } => Ok(Instruction::Close { register }),
        Statement::Send {
            end,
            contract,
            message,
        } => send(contracts, end, contract, message),
        Statement::Pass {
            end,
            contract,
            message,
            payload,
        } => pass(contracts, end, contract, message, payload),
        Statement::Receive { end, payload } => Ok(Instruction::Receive { end, payload }),
        Statement::Case {
            contract,
            message,
            distance,
        } => case(contracts, contract, message, distance),
        Statement::Lost { distance } => Ok(Instruction::Lost {
            distance: distance.value,
        }),
        Statement::Jump { distance } => Ok(Instruction::Jump {
            distance: distance.value,
        }),
    }
}
