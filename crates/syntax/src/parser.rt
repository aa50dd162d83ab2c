// Reads a contract file by its grammar, from the left, one word at a time.
ghost use Rattle.std.specs.Prelude.{◌+◌, ◌*◌, ◌≤◌, length};
ghost use Rattle.words.specs.Stream.{bytes_in};
ghost use Rattle.grammar.specs.Feeds.{left};
ghost use Rattle.grammar.specs.Rows.{row_items};

mod messages;
mod moves;

use crate::tree::{Head, Mark, Message, Move, MoveEntry, Payload, Tree};
use grammar::family::Named;
use grammar::fault::GrammarFault;
use grammar::feed::Feed;
use grammar::row::Row;
use words::name::{Ident, Name};
use words::word::{Keyword, Mark as MarkWord};

// What is left to read, the contracts and moves that were read, and the contract that is being read.
// A move is at least six of a file's 4,096 bytes, so there is room for each.
#[derive(Drop)]
pub(crate) struct Parser<'a> {
    feed: Feed<'a>,
    heads: Row<Head, 8>,
    moves: Row<MoveEntry, 682>,
    head: Head,
    ghost light: { 6 * length (row_items moves) + bytes_in (left feed) ≤ 4096 },
}

// What stands in unused places.
const NO_IDENT: Ident = Ident {
    place: 0,
    name: Name {
        len: 0,
        bytes: [0; 16],
    },
};

const NO_MESSAGE: Message = Message {
    mark: Mark::Out,
    ident: NO_IDENT,
    payload: Payload::Nothing,
};

const NO_MOVE: MoveEntry = MoveEntry {
    contract: 0,
    state: 0,
    step: Move {
        message: NO_IDENT,
        mark: Mark::Out,
        target: NO_IDENT,
    },
};

// A contract stands among the file's under its name.
impl Named for Head {
    ghost named = { λ x. x.ident };

    fn ident(&self) -> Ident {
        self.ident
    }
}

impl<'a> Parser<'a> {
    ghost use Rattle.std.specs.Prelude.{◌≡◌, ◌<◌, [], Ok, OnOk};
    ghost use Rattle.grammar.specs.Feeds.{source_in};
    ghost use Rattle.grammar.specs.Table.{Goes};
    ghost use Rattle.syntax.specs.Machine as q;
    ghost use Rattle.syntax.specs.Parsing.{parts_in, progress, reads, Reads};
    ghost use Rattle.syntax.specs.Trees.{declares, parts, parts_of};

    // Nothing was read.
    pub(crate) fn new(feed: Feed<'a>) -> Parser<'a>
        requires { bytes_in (left feed) ≤ 4096 }
        ensures value { parts_in result ≡ parts_of [] }
        ensures feed { (source_in result.feed ≡ source_in feed.entry) × (left result.feed ≡ left feed.entry) }
    {
        let head = Parser::opened(NO_IDENT);
        Parser {
            feed,
            heads: Row::new(head),
            moves: Row::new(NO_MOVE),
            head,
        }
    }

    // The contracts and moves that were read.
    pub(crate) fn into_tree(self) -> Tree
        ensures { parts result ≡ parts_in self.entry }
    {
        let Parser { heads, moves, .. } = self;
        Tree::new(heads, moves)
    }

    // A contract that declares nothing so far.
    fn opened(ident: Ident) -> Head
        ensures { declares result ≡ record { ident = ident; messages = []; states = [] } }
    {
        Head {
            ident,
            messages: Row::new(NO_MESSAGE),
            states: Row::new(NO_IDENT),
        }
    }

    // The name of a state, which joins the contract's states.
    fn state_name(&mut self) -> Result<(), GrammarFault>
        ensures { Reads (q.state (progress self.old)) self.old result (λ _. q.entering (progress self.new)) self.new }
    {
        let ident = self.feed.name()?;
        self.feed.admit_to(ident, &self.head.states)?;
        let _ = self.head.states.push(ident);
        Ok(())
    }

    // A state after its `state`.
    fn state(&mut self) -> Result<(), GrammarFault>
        ensures { Reads (q.state (progress self.old)) self.old result (λ _. q.states (progress self.new)) self.new }
    {
        self.state_name()?;
        self.feed.mark(MarkWord::OpenBrace)?;
        self.moves()
    }

    // The states of a contract, and its end.
    fn states(&mut self) -> Result<(), GrammarFault>
        ensures { Reads (q.state (progress self.old)) self.old result (λ _. q.more (q.ended (progress self.new))) self.new }
    {
        loop {
            self.state()?;
            if !self
                .feed
                .keyword_or_mark(Keyword::State, MarkWord::CloseBrace)?
            {
                return Ok(());
            }
        }
    }

    // The name of a contract.
    fn contract_name(&mut self) -> Result<Ident, GrammarFault>
        ensures reads { Reads (q.heading (parts_in self.old)) self.old result (λ n. q.opening (parts_in self.new) n) self.new }
        ensures room { OnOk result (length (row_items self.new.heads) < 8) }
    {
        let ident = self.feed.name()?;
        self.feed.admit_to(ident, &self.heads)?;
        Ok(ident)
    }

    // The contract joins the file's.
    fn end(&mut self)
        requires { length (row_items self.old.heads) < 8 }
        ensures value { parts_in self.new ≡ q.ended (progress self.old) }
        ensures feed { self.new.feed ≡ self.old.feed }
    {
        let _ = self.heads.push(self.head);
    }

    // What stands between a contract's braces, and the `}`.
    fn body(&mut self) -> Result<(), GrammarFault>
        ensures { Reads (q.messages (progress self.old)) self.old result (λ _. q.more (q.ended (progress self.new))) self.new }
    {
        self.messages()?;
        self.states()
    }

    // A contract after its `contract`.
    fn contract(&mut self) -> Result<(), GrammarFault>
        ensures goes { Goes (reads (q.heading (parts_in self.old)) self.old) result (λ _. reads (q.more (parts_in self.new)) self.new) }
        ensures fewer { bytes_in (left self.new.feed) ≤ bytes_in (left self.old.feed) }
    {
        let ident = self.contract_name()?;
        self.head = Parser::opened(ident);
        self.feed.mark(MarkWord::OpenBrace)?;
        self.body()?;
        self.end();
        Ok(())
    }

    // The contracts of a file.
    pub(crate) fn contracts(&mut self) -> Result<(), GrammarFault>
        ensures { Goes (reads (q.start (parts_in self.old)) self.old) result (λ _. Ok (parts_in self.new)) }
    {
        self.feed.keyword(Keyword::Contract)?;
        loop {
            self.contract()?;
            if !self.feed.keyword_or_end(Keyword::Contract)? {
                return Ok(());
            }
        }
    }
}
