// The rule on messages: `send` names one without payload, `pass` one with.
ghost use Rattle.std.specs.Prelude.{◌≡◌, ℕ, ◌<◌, ◌≤◌, MatchOption};
ghost use Rattle.contracts.specs.View.{tables_in};
ghost use Rattle.scripts.specs.Names.{PairOf};
ghost use Rattle.scripts.specs.Payloads.{Carrying, WrongPayload as Wrong};

use crate::position::Position;
use crate::resolve::pair_of;
use crate::rule::Rule;
use contracts::declaration::Payload;
use contracts::set::ContractSet;
use script_syntax::tree::Statement;
use words::fault::{Source, Span};
use words::name::Ident;

/// What a message carries fits the statement that sends it.
#[derive(Clone, Copy)]
pub(crate) struct Payloads<'a> {
    pub contracts: &'a ContractSet,
}

impl Payloads<'_> {
    // What the message of a contract carries, both by their names; none where one of the names is not declared.
    fn payload_of(&self, contract: Ident, message: Ident) -> Option<Payload>
        ensures { MatchOption result ((k n : ℕ) → PairOf (tables_in self.now.contracts.now) contract message k n → ⊥)
            (λ p. Carrying (λ q. q ≡ p) (tables_in self.now.contracts.now) contract message) }
    {
        let (k, m) = pair_of(self.contracts, contract, message).ok()?;
        let found = self.contracts.message(k as usize, m as usize)?;
        Some(found.payload)
    }
}

impl Rule for Payloads<'_> {
    ghost breaks = { λ rule n i x s. Wrong (tables_in rule.contracts.now) x s };

    fn fault(&self, _at: Position, statement: Statement) -> Option<Span> {
        match statement {
            Statement::Send {
                contract,
                message,
                ..
            } => {
                match self.payload_of(contract, message) {
                    Some(Payload::Nothing) | None => None,
                    Some(_) => Some(message.span(Source::Scripts)),
                }
            }
            Statement::Pass {
                contract,
                message,
                ..
            } => {
                match self.payload_of(contract, message) {
                    Some(Payload::Nothing) => Some(message.span(Source::Scripts)),
                    _ => None,
                }
            }
            _ => None,
        }
    }
}
