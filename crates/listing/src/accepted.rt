// The listing of an accepted set of contracts: a line for each contract, message, state and move.
ghost use Rattle.std.specs.Prelude.{◌≡◌, ◌≤◌, length, IfOk, MatchOption, Some, string_bytes};
ghost use Rattle.contracts.specs.Paths.{Longest};
ghost use Rattle.contracts.specs.Rules.{OneWay};
ghost use Rattle.contracts.specs.Tables.{table_at};
ghost use Rattle.contracts.specs.View.{tables_in};
ghost use Rattle.syntax.specs.declared.tree.Mark.TheVariants.{Out, In};
ghost use Rattle.listing.specs.Listings.{contract_text, Lists, message_line, message_text, move_line, move_text, payload_text, role_text, sign_text, state_lines, state_text, table_of, way_text};

use crate::parts::{AllParts, Parts};
use crate::shown::ShownName;
use contracts::declaration::{Message, Payload};
use contracts::set::ContractSet;
use contracts::set::family::Family;
use std::alloc::{AllocError, Global};
use std::fmt;
use syntax::tree::{Mark, Role};
use words::name::Name;

// The mark of a message.
#[derive(Clone, Copy)]
struct Way(Mark);

impl fmt::Display for Way {
    ghost output = { λ way. Some (way_text way.0) };

    fn fmt<W: fmt::Write>(&self, f: &mut fmt::Formatter<W>) -> fmt::Result {
        f.write_str(match self.0 {
            Mark::Out => "out",
            Mark::In => "in",
        })
    }
}

// The mark of a move.
#[derive(Clone, Copy)]
struct Sign(Mark);

impl fmt::Display for Sign {
    ghost output = { λ sign. Some (sign_text sign.0) };

    fn fmt<W: fmt::Write>(&self, f: &mut fmt::Formatter<W>) -> fmt::Result {
        f.write_str(match self.0 {
            Mark::Out => "!",
            Mark::In => "?",
        })
    }
}

// Which end a message carries.
#[derive(Clone, Copy)]
struct End(Role);

impl fmt::Display for End {
    ghost output = { λ end. Some (role_text end.0) };

    fn fmt<W: fmt::Write>(&self, f: &mut fmt::Formatter<W>) -> fmt::Result {
        f.write_str(match self.0 {
            Role::Exporting => "exp",
            Role::Importing => "imp",
        })
    }
}

// What a message carries.
#[derive(Clone, Copy)]
struct Carried(Payload);

impl fmt::Display for Carried {
    ghost output = { λ carried. Some (payload_text carried.0) };

    fn fmt<W: fmt::Write>(&self, f: &mut fmt::Formatter<W>) -> fmt::Result {
        match self.0 {
            Payload::Nothing => Ok(()),
            Payload::Block => f.write_str(" block"),
            Payload::End {
                role,
                contract,
                state,
            } => {
                let end = End(role);
                write!(f, " {end} {contract} {state}")
            }
        }
    }
}

// The line of a message.
#[derive(Clone, Copy)]
struct MessageLine(Message);

impl fmt::Display for MessageLine {
    ghost output = { λ line. Some (message_line line.0) };

    fn fmt<W: fmt::Write>(&self, f: &mut fmt::Formatter<W>) -> fmt::Result {
        let way = Way(self.0.mark);
        let name = ShownName(self.0.name);
        let carried = Carried(self.0.payload);
        writeln!(f, " message {way} {name}{carried}")
    }
}

// A contract of a set, by its number.
#[derive(Clone, Copy)]
struct Contract<'a> {
    set: &'a ContractSet,
    number: usize,
}

// The messages of a contract.
#[derive(Clone, Copy)]
struct Messages<'a>(Contract<'a>);

impl Parts for Messages<'_> {
    type Part = MessageLine;

    ghost part_count = { λ _. 16 };

    ghost part_text = { λ messages. message_text (table_of messages.0) };

    fn part_count(&self) -> usize {
        16
    }

    fn part(&self, m: usize) -> Option<MessageLine> {
        let Contract { set, number } = self.0;
        Some(MessageLine(set.message(number, m)?))
    }
}

// The line of a state's move.
#[derive(Clone, Copy)]
struct MoveLine {
    message: usize,
    mark: Mark,
    target: u8,
}

impl fmt::Display for MoveLine {
    ghost output = { λ line. Some (move_line line.message line.mark (Some line.target)) };

    fn fmt<W: fmt::Write>(&self, f: &mut fmt::Formatter<W>) -> fmt::Result {
        let message = self.message;
        let sign = Sign(self.mark);
        let target = self.target;
        writeln!(f, "  move {message}{sign} {target}")
    }
}

// The moves of a state, in the order of message numbers.
#[derive(Clone, Copy)]
struct Moves<'a> {
    contract: Contract<'a>,
    state: usize,
}

impl Parts for Moves<'_> {
    type Part = MoveLine;

    ghost part_count = { λ _. 16 };

    ghost part_text = { λ moves. move_text (table_of moves.contract) moves.state };

    fn part_count(&self) -> usize {
        16
    }

    fn part(&self, m: usize) -> Option<MoveLine> {
        let Contract { set, number } = self.contract;
        let mark = set.message(number, m)?.mark;
        let target = set.target(number, self.state, m)?;
        Some(MoveLine {
            message: m,
            mark,
            target,
        })
    }
}

// A state with its moves.
#[derive(Clone, Copy)]
struct StateLines<'a> {
    name: Name,
    moves: Moves<'a>,
}

impl fmt::Display for StateLines<'_> {
    ghost output = { λ s. Some (state_lines s.name (move_text (table_of s.moves.contract) s.moves.state)) };

    fn fmt<W: fmt::Write>(&self, f: &mut fmt::Formatter<W>) -> fmt::Result {
        let name = ShownName(self.name);
        let moves = AllParts(self.moves);
        write!(f, " state {name}\n{moves}")
    }
}

// The states of a contract with their moves.
#[derive(Clone, Copy)]
struct States<'a>(Contract<'a>);

impl<'a> Parts for States<'a> {
    type Part = StateLines<'a>;

    ghost part_count = { λ _. 16 };

    ghost part_text = { λ states. state_text (table_of states.0) };

    fn part_count(&self) -> usize {
        16
    }

    fn part(&self, s: usize) -> Option<StateLines<'a>> {
        let contract = self.0;
        let name = contract.set.name(Family::States(contract.number), s)?;
        Some(StateLines {
            name,
            moves: Moves { contract, state: s },
        })
    }
}

// A contract by its name, its bounds, its messages and its states.
#[derive(Clone, Copy)]
struct ContractLines<'a> {
    contract: Contract<'a>,
    name: Name,
    out_bound: u8,
    in_bound: u8,
    ghost named: { name ≡ (table_of contract).declaration.name },
    ghost longest_out: { Longest (OneWay (table_of contract) Out) out_bound },
    ghost longest_in: { Longest (OneWay (table_of contract) In) in_bound },
}

impl fmt::Display for ContractLines<'_> {
    ghost output = { λ c. Some (contract_text (table_of c.contract) c.out_bound c.in_bound) };

    fn fmt<W: fmt::Write>(&self, f: &mut fmt::Formatter<W>) -> fmt::Result {
        let name = ShownName(self.name);
        let out_bound = self.out_bound;
        let in_bound = self.in_bound;
        let messages = AllParts(Messages(self.contract));
        let states = AllParts(States(self.contract));
        write!(
            f,
            "contract {name} out {out_bound} in {in_bound}\n{messages}{states}"
        )
    }
}

// What is listed of a contract; none where there is no such contract.
fn contract_lines<'a>(set: &'a ContractSet, number: usize) -> Option<ContractLines<'a>>
    ensures { MatchOption result (length (tables_in set.now) ≤ number) (λ c. table_of c.contract ≡ table_at (tables_in set.now) number) }
{
    Some(ContractLines {
        contract: Contract { set, number },
        name: set.name(Family::Contracts, number)?,
        out_bound: set.bound(number, Mark::Out)?,
        in_bound: set.bound(number, Mark::In)?,
    })
}

/// The listing of a set: for each contract its bounds, messages, states and moves, with numbers in place of the names that
/// they refer to. The bounds are the moves on the longest one-way paths.
pub fn list_contracts(heap: Global, set: &ContractSet) -> Result<String, AllocError>
    ensures { IfOk result (λ s. Lists (tables_in set.now) (length (tables_in set.now)) (string_bytes s)) }
{
    let mut out = String::new(heap);
    // By number and not as `AllParts`: a listing's bounds are told by what they bound, so its text is no function of the set.
    for number in 0..set.contract_count() {
        if let Some(contract) = contract_lines(set, number) {
            out.write(contract)?;
        }
    }
    Ok(out)
}
