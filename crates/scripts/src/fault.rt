// The faults of a script file that its rules find.
ghost use Rattle.std.specs.Prelude.{◌≡◌};
ghost use Rattle.scripts.specs.Faults.{script_report};
ghost use Rattle.scripts.specs.declared.fault.ScriptFault.TheVariants.{Grammar};

use grammar::fault::GrammarFault;
use words::fault::{Report, Span};

/// A text that is no script file, or breaks a rule on scripts.
#[derive(Clone, Copy)]
pub enum ScriptFault {
    /// The text is no script file (2 to 7).
    Grammar(GrammarFault),
    /// 8: a name is not declared in its family.
    Undeclared(Span),
    /// 15: `send` names a message with payload, or `pass` one without.
    WrongPayload(Span),
    /// 16: a jump leads outside 0 to the number of instructions.
    JumpOutside(Span),
}

/// What the station shows of a script fault: 8, 15 or 16 in layer 3, or what it shows of a grammar fault.
impl From<ScriptFault> for Report {
    ghost from_gives = { λ f r. r ≡ script_report f };

    fn from(fault: ScriptFault) -> Report {
        match fault {
            ScriptFault::Grammar(fault) => fault.into(),
            ScriptFault::Undeclared(span) => span.report(8, 3),
            ScriptFault::WrongPayload(span) => span.report(15, 3),
            ScriptFault::JumpOutside(span) => span.report(16, 3),
        }
    }
}

impl From<GrammarFault> for ScriptFault {
    ghost from_gives = { λ e r. r ≡ Grammar e };

    fn from(e: GrammarFault) -> ScriptFault {
        ScriptFault::Grammar(e)
    }
}
