// A script file as it is written: its processes with their instructions.
ghost use Rattle.std.specs.Prelude.{◌≡◌};
ghost use Rattle.grammar.specs.Rows.{row_items};

use grammar::family::Named;
use grammar::row::Row;
use words::name::Ident;

/// How far a jump goes, from −127 to 127, with the place and the length of its number in the text.
#[derive(Clone, Copy)]
pub struct Distance {
    pub place: usize,
    pub len: usize,
    pub value: i16,
}

/// An instruction as it is written. Registers are 0 to 7, places in a block 0 to 63, bytes 0 to 255.
#[derive(Clone, Copy)]
pub enum Statement {
    End,
    New {
        register: u8,
    },
    Put {
        register: u8,
        place: u8,
        byte: u8,
    },
    Free {
        register: u8,
    },
    Open {
        contract: Ident,
        exporting: u8,
        importing: u8,
    },
    Close {
        register: u8,
    },
    Send {
        end: u8,
        contract: Ident,
        message: Ident,
    },
    Pass {
        end: u8,
        contract: Ident,
        message: Ident,
        payload: u8,
    },
    Receive {
        end: u8,
        payload: u8,
    },
    Case {
        contract: Ident,
        message: Ident,
        distance: Distance,
    },
    Lost {
        distance: Distance,
    },
    Jump {
        distance: Distance,
    },
}

/// A process: its name and its instructions, at most 64, numbered as they appear.
#[derive(Clone, Copy)]
pub struct Process {
    pub ident: Ident,
    pub statements: Row<Statement, 64>,
}

// A process stands among the file's under its name.
impl Named for Process {
    ghost named = { λ x. x.ident };

    fn ident(&self) -> Ident {
        self.ident
    }
}

/// The processes of a script file, numbered as they appear.
#[derive(Drop)]
pub struct Tree {
    processes: Row<Process, 8>,
}

impl Tree {
    // The processes in this table.
    pub(crate) fn new(processes: Row<Process, 8>) -> Tree
        ensures { row_items result.processes ≡ row_items processes }
    {
        Tree { processes }
    }

    /// The processes in the order of the text.
    pub fn processes(&self) -> &[Process]
        ensures { result.now ≡ row_items self.now.processes }
    {
        self.processes.as_slice()
    }
}
