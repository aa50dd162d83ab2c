// The twelve instruction words.
ghost use Rattle.script_syntax.specs.Opcodes.{Begins};

use words::word::Keyword;

/// An instruction word.
#[derive(Clone, Copy)]
pub(crate) enum Opcode {
    New,
    Put,
    Free,
    Open,
    Close,
    Send,
    Pass,
    Receive,
    Case,
    Lost,
    Jump,
    End,
}

/// A reserved word that begins no instruction.
#[derive(Clone, Copy)]
pub(crate) struct NoInstruction;

impl TryFrom<Keyword> for Opcode {
    type Error = NoInstruction;

    ghost try_from_gives = { Begins };

    fn try_from(keyword: Keyword) -> Result<Opcode, NoInstruction> {
        match keyword {
            Keyword::New => Ok(Opcode::New),
            Keyword::Put => Ok(Opcode::Put),
            Keyword::Free => Ok(Opcode::Free),
            Keyword::Open => Ok(Opcode::Open),
            Keyword::Close => Ok(Opcode::Close),
            Keyword::Send => Ok(Opcode::Send),
            Keyword::Pass => Ok(Opcode::Pass),
            Keyword::Receive => Ok(Opcode::Receive),
            Keyword::Case => Ok(Opcode::Case),
            Keyword::Lost => Ok(Opcode::Lost),
            Keyword::Jump => Ok(Opcode::Jump),
            Keyword::End => Ok(Opcode::End),
            _ => Err(NoInstruction),
        }
    }
}
