// Instructions after their words: the operands of each.
ghost use Rattle.std.specs.Prelude.{◌≤◌, []};
ghost use Rattle.words.specs.Stream.{bytes_in};
ghost use Rattle.grammar.specs.Feeds.{left};
ghost use Rattle.grammar.specs.Table.{Goes};
ghost use Rattle.script_syntax.specs.declared.opcode.Opcode.TheVariants as o;
ghost use Rattle.script_syntax.specs.Machine as q;
ghost use Rattle.script_syntax.specs.Opcodes.{kinds};

use crate::fetch::{distance, small};
use crate::opcode::Opcode;
use crate::tree::Statement;
use grammar::fault::GrammarFault;
use grammar::feed::Feed;

// `open C r s`
fn open(feed: &mut Feed<'_>) -> Result<Statement, GrammarFault>
    ensures { q.Completes o.Open feed.old result feed.new }
{
    Ok(Statement::Open {
        contract: feed.name()?,
        exporting: small(feed, 7)?,
        importing: small(feed, 7)?,
    })
}

// `send e C M`
fn send(feed: &mut Feed<'_>) -> Result<Statement, GrammarFault>
    ensures { q.Completes o.Send feed.old result feed.new }
{
    Ok(Statement::Send {
        end: small(feed, 7)?,
        contract: feed.name()?,
        message: feed.name()?,
    })
}

// `pass e C M t`
fn pass(feed: &mut Feed<'_>) -> Result<Statement, GrammarFault>
    ensures { q.Completes o.Pass feed.old result feed.new }
{
    Ok(Statement::Pass {
        end: small(feed, 7)?,
        contract: feed.name()?,
        message: feed.name()?,
        payload: small(feed, 7)?,
    })
}

// `case C M d`
fn case(feed: &mut Feed<'_>) -> Result<Statement, GrammarFault>
    ensures { q.Completes o.Case feed.old result feed.new }
{
    Ok(Statement::Case {
        contract: feed.name()?,
        message: feed.name()?,
        distance: distance(feed)?,
    })
}

/// The operands of an instruction, whose word was read.
pub(crate) fn statement(feed: &mut Feed<'_>, opcode: Opcode) -> Result<Statement, GrammarFault>
    ensures { q.Completes opcode feed.old result feed.new }
{
    match opcode {
        Opcode::New => Ok(Statement::New {
            register: small(feed, 7)?,
        }),
        Opcode::Put => Ok(Statement::Put {
            register: small(feed, 7)?,
            place: small(feed, 63)?,
            byte: small(feed, 255)?,
        }),
        Opcode::Free => Ok(Statement::Free {
            register: small(feed, 7)?,
        }),
        Opcode::Open => open(feed),
        Opcode::Close => Ok(Statement::Close {
            register: small(feed, 7)?,
        }),
        Opcode::Send => send(feed),
        Opcode::Pass => pass(feed),
        Opcode::Receive => Ok(Statement::Receive {
            end: small(feed, 7)?,
            payload: small(feed, 7)?,
        }),
        Opcode::Case => case(feed),
        Opcode::Lost => Ok(Statement::Lost {
            distance: distance(feed)?,
        }),
        Opcode::Jump => Ok(Statement::Jump {
            distance: distance(feed)?,
        }),
        Opcode::End => Ok(Statement::End),
    }
}
