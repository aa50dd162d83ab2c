// The faults of a text that its grammar and its limits find.
ghost use Rattle.std.specs.Prelude.{◌≡◌};
ghost use Rattle.grammar.specs.declared.fault.GrammarFault.TheVariants as faults;
ghost use Rattle.grammar.specs.Faults.{grammar_report};

use words::fault::{Report, Span, WordFault};

/// A text that is no file of its grammar, or passes a limit.
#[derive(Clone, Copy)]
pub enum GrammarFault {
    /// The words themselves are at fault (2, 3).
    Word(WordFault),
    /// 4: the word, or the text's end, is not allowed there.
    Unexpected(Span),
    /// 5: a number is outside its range.
    OutOfRange(Span),
    /// 6: one more than a family or a process may have.
    TooMany(Span),
    /// 7: the name stands a second time in its family.
    Repeated(Span),
}

impl From<WordFault> for GrammarFault {
    ghost from_gives = { λ e r. r ≡ faults.Word e };

    fn from(e: WordFault) -> GrammarFault {
        GrammarFault::Word(e)
    }
}

/// The fault as the station shows it: 2 and 3 with layer 1, 4 to 7 with layer 2.
impl From<GrammarFault> for Report {
    ghost from_gives = { λ f r. r ≡ grammar_report f };

    fn from(fault: GrammarFault) -> Report {
        match fault {
            GrammarFault::Word(fault) => fault.into(),
            GrammarFault::Unexpected(span) => span.report(4, 2),
            GrammarFault::OutOfRange(span) => span.report(5, 2),
            GrammarFault::TooMany(span) => span.report(6, 2),
            GrammarFault::Repeated(span) => span.report(7, 2),
        }
    }
}
