// The script of a process.
use crate::instruction::Instruction;
use grammar::row::Row;
use words::name::Name;

/// A process: its name and its instructions, numbered as they appear.
#[derive(Clone, Copy)]
pub struct Script {
    pub(crate) name: Name,
    pub(crate) instructions: Row<Instruction, 64>,
}
