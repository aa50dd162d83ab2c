// Reads a script file by its grammar, from the left, one word at a time.
ghost use Rattle.std.specs.Prelude.{◌≡◌, ◌+◌, ◌<◌, ◌≤◌, List, [], OnOk};
ghost use Rattle.words.specs.declared.fault.Source.TheVariants as sources;
ghost use Rattle.words.specs.declared.name.Ident.{Ident as IdentOf};
ghost use Rattle.words.specs.Stream.{bytes_in};
ghost use Rattle.grammar.specs.Feeds.{left, source_in};
ghost use Rattle.grammar.specs.Rows.{row_items};
ghost use Rattle.grammar.specs.Table.{Goes, run};
ghost use Rattle.script_syntax.specs.Laws.{outcome};
ghost use Rattle.script_syntax.specs.Machine as q;
ghost use Rattle.script_syntax.specs.Opcodes.{kinds};
ghost use Rattle.script_syntax.specs.Trees.{processes_of, ProcessParts};

use crate::fetch::statement_or_end;
use crate::opcode::Opcode;
use crate::statement::statement;
use crate::tree::{Process, Statement, Tree};
use grammar::fault::GrammarFault;
use grammar::feed::Feed;
use grammar::row::Row;
use words::name::{Ident, Name};
use words::word::{Keyword, Mark};

// An instruction after its word, and its `;`.
fn line(feed: &mut Feed<'_>, opcode: Opcode) -> Result<Statement, GrammarFault>
    ensures goes { (p : q.Progress) → Goes (q.reading (q.operands p opcode [] (kinds opcode)) feed.old) result (λ x. q.reading (q.body (q.added p x)) feed.new) }
    ensures left { bytes_in (left feed.new) ≤ bytes_in (left feed.old) }
{
    let x = statement(feed, opcode)?;
    feed.mark(Mark::Semicolon)?;
    Ok(x)
}

// The instructions of a process, which join those that were read, and the `}`.
fn body(feed: &mut Feed<'_>, statements: &mut Row<Statement, 64>) -> Result<(), GrammarFault>
    ensures goes { (ps : List ProcessParts) (n : IdentOf) → Goes (q.reading (q.body (q.inside ps n (row_items statements.old))) feed.old) result (λ _. q.reading (q.more (q.ended (q.inside ps n (row_items statements.new)))) feed.new) }
    ensures left { bytes_in (left feed.new) ≤ bytes_in (left feed.old) }
{
    while let Some(opcode) = statement_or_end(feed, statements.as_slice().len() >= 64)? {
        let x = line(feed, opcode)?;
        let _ = statements.push(x);
    }
    Ok(())
}

// A process after its `process`, which joins those before it.
#[tactic(auto, using(crate::proofs::Processes::idents_of))]
fn process(feed: &mut Feed<'_>, before: &mut Row<Process, 8>) -> Result<(), GrammarFault>
    ensures goes { Goes (q.reading (q.heading (processes_of (row_items before.old))) feed.old) result (λ _. q.reading (q.more (processes_of (row_items before.new))) feed.new) }
    ensures spent { OnOk result (bytes_in (left feed.new) < bytes_in (left feed.old)) }
{
    let ident = feed.name()?;
    feed.admit_to(ident, before)?;
    feed.mark(Mark::OpenBrace)?;
    let mut next = Process {
        ident,
        statements: Row::new(Statement::End),
    };
    body(feed, &mut next.statements)?;
    let _ = before.push(next);
    Ok(())
}

/// The file whose words are left.
pub(crate) fn file(mut feed: Feed<'_>) -> Result<Tree, GrammarFault>
    requires { source_in feed ≡ sources.Scripts }
    ensures { outcome result ≡ run q.ask sources.Scripts (q.start []) (left feed.entry) }
{
    feed.keyword(Keyword::Process)?;
    let filler = Process {
        ident: Ident {
            place: 0,
            name: Name::copied(b""),
        },
        statements: Row::new(Statement::End),
    };
    let mut all = Row::new(filler);
    loop {
        process(&mut feed, &mut all)?;
        if !feed.keyword_or_end(Keyword::Process)? {
            return Ok(Tree::new(all));
        }
    }
}
