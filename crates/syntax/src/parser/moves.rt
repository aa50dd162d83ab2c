// The moves of a state.
ghost use Rattle.std.specs.Prelude.{◌≡◌, ◌+◌, ◌≤◌, OnOk};
ghost use Rattle.syntax.specs.Machine as q;
ghost use Rattle.syntax.specs.Parsing.{progress, unread, weight, Reads};

use crate::fetch::way;
use crate::parser::Parser;
use crate::tree::{Move, MoveEntry};
use grammar::fault::GrammarFault;
use words::name::Ident;
use words::word::Mark as MarkWord;

impl<'a> Parser<'a> {
    // A move, whose message was read, and its `;`.
    fn step(&mut self, message: Ident) -> Result<Move, GrammarFault>
        ensures reads { Reads (q.move (progress self.old) message) self.old result (λ x. q.moves (q.add_move (progress self.new) x)) self.new }
        ensures same { progress self.new ≡ progress self.old }
        ensures spent { OnOk result (5 + unread self.new ≤ unread self.old) }
    {
        let mark = way(&mut self.feed)?;
        self.feed.mark(MarkWord::Arrow)?;
        let target = self.feed.name()?;
        self.feed.mark(MarkWord::Semicolon)?;
        Ok(Move {
            message,
            mark,
            target,
        })
    }

    // One move more of the last state.
    fn add_move(&mut self, step: Move)
        requires { weight self.old + 6 ≤ 4096 }
        ensures value { progress self.new ≡ q.add_move (progress self.old) step }
        ensures feed { self.new.feed ≡ self.old.feed }
        ensures heads { self.new.heads ≡ self.old.heads }
    {
        let contract = self.heads.as_slice().len();
        let state = self.head.states.as_slice().len().saturating_sub(1);
        let _ = self.moves.push(MoveEntry {
            contract,
            state,
            step,
        });
    }

    // The moves of a state, and its end.
    pub(super) fn moves(&mut self) -> Result<(), GrammarFault>
        ensures { Reads (q.moves (progress self.old)) self.old result (λ _. q.states (progress self.new)) self.new }
    {
        while let Some(message) = self.feed.name_or(MarkWord::CloseBrace)? {
            let step = self.step(message)?;
            self.add_move(step);
        }
        Ok(())
    }
}
