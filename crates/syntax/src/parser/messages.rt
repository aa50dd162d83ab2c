// The messages of a contract.
ghost use Rattle.std.specs.Prelude.{◌≡◌, ◌<◌, length, OnOk};
ghost use Rattle.grammar.specs.Rows.{row_items};
ghost use Rattle.syntax.specs.Machine as q;
ghost use Rattle.syntax.specs.Parsing.{progress, Reads};

use crate::cargo::Cargo;
use crate::fetch::{cargo, message_or_state};
use crate::parser::Parser;
use crate::tree::{Mark, Message, Payload};
use grammar::family::Named;
use grammar::fault::GrammarFault;
use words::name::Ident;
use words::word::Mark as MarkWord;

// A message stands among its contract's under its name.
impl Named for Message {
    ghost named = { λ x. x.ident };

    fn ident(&self) -> Ident {
        self.ident
    }
}

impl<'a> Parser<'a> {
    // The `;` of a message.
    fn closed(&mut self, message: Message) -> Result<Message, GrammarFault>
        ensures reads { Reads (q.closing (progress self.old) message) self.old result (λ x. q.messages (q.add_message (progress self.new) x)) self.new }
        ensures same { progress self.new ≡ progress self.old }
    {
        self.feed.mark(MarkWord::Semicolon)?;
        Ok(message)
    }

    // A message from the word behind its name on, and its `;`.
    fn message_of(&mut self, mark: Mark, ident: Ident) -> Result<Message, GrammarFault>
        ensures reads { Reads (q.called (progress self.old) mark ident) self.old result (λ x. q.messages (q.add_message (progress self.new) x)) self.new }
        ensures same { progress self.new ≡ progress self.old }
    {
        let payload = match cargo(&mut self.feed)? {
            Cargo::Nothing => {
                return Ok(Message {
                    mark,
                    ident,
                    payload: Payload::Nothing,
                });
            }
            Cargo::Block => Payload::Block,
            Cargo::End(role) => {
                let contract = self.feed.name()?;
                let state = self.feed.name()?;
                Payload::End {
                    role,
                    contract,
                    state,
                }
            }
        };
        self.closed(Message {
            mark,
            ident,
            payload,
        })
    }

    // The name of a message.
    fn message_name(&mut self, mark: Mark) -> Result<Ident, GrammarFault>
        ensures reads { Reads (q.message (progress self.old) mark) self.old result (λ n. q.called (progress self.new) mark n) self.new }
        ensures room { OnOk result (length (row_items self.new.head.messages) < 16) }
    {
        let ident = self.feed.name()?;
        self.feed.admit_to(ident, &self.head.messages)?;
        Ok(ident)
    }

    // A message after its `out` or `in`.
    fn message(&mut self, mark: Mark) -> Result<(), GrammarFault>
        ensures { Reads (q.message (progress self.old) mark) self.old result (λ _. q.messages (progress self.new)) self.new }
    {
        let ident = self.message_name(mark)?;
        let message = self.message_of(mark, ident)?;
        let _ = self.head.messages.push(message);
        Ok(())
    }

    // The messages of a contract, and the first `state`.
    pub(super) fn messages(&mut self) -> Result<(), GrammarFault>
        ensures { Reads (q.messages (progress self.old)) self.old result (λ _. q.state (progress self.new)) self.new }
    {
        while let Some(mark) = message_or_state(&mut self.feed)? {
            self.message(mark)?;
        }
        Ok(())
    }
}
