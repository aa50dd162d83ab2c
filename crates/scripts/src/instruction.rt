// Instructions with numbers in place of names.
ghost use Rattle.std.specs.Prelude.{◌≡◌};
ghost use Rattle.scripts.specs.Kinds.{distance_of, kind_of};

// Not one type with `Statement`: it would take a parameter each for contracts, messages and distances, and be no plainer.
/// An instruction of a script. Registers are 0 to 7, places in a block 0 to 63, bytes 0 to 255; contracts and messages go
/// by their numbers in the contract set, and a jump by its distance from the instruction's own number.
#[derive(Clone, Copy)]
pub enum Instruction {
    End,
    New {
        register: u8,
    },
    Put {
        register: u8,
        place: u8,
        byte: u8,
    },
    Free {
        register: u8,
    },
    Open {
        contract: u8,
        exporting: u8,
        importing: u8,
    },
    Close {
        register: u8,
    },
    Send {
        end: u8,
        contract: u8,
        message: u8,
    },
    Pass {
        end: u8,
        contract: u8,
        message: u8,
        payload: u8,
    },
    Receive {
        end: u8,
        payload: u8,
    },
    Case {
        contract: u8,
        message: u8,
        distance: i16,
    },
    Lost {
        distance: i16,
    },
    Jump {
        distance: i16,
    },
}

impl Instruction {
    // A method and no `From`: the number says the kind and not the instruction, so `kind` says more at a call.
    /// The number of the instruction's kind, 0 to 11: new, put, free, open, close, send, pass, receive, case, lost, jump, end.
    pub fn kind(self) -> u8
        ensures { result ≡ kind_of self }
    {
        match self {
            Instruction::New { .. } => 0,
            Instruction::Put { .. } => 1,
            Instruction::Free { .. } => 2,
            Instruction::Open { .. } => 3,
            Instruction::Close { .. } => 4,
            Instruction::Send { .. } => 5,
            Instruction::Pass { .. } => 6,
            Instruction::Receive { .. } => 7,
            Instruction::Case { .. } => 8,
            Instruction::Lost { .. } => 9,
            Instruction::Jump { .. } => 10,
            Instruction::End => 11,
        }
    }

    // The distance of a jump.
    pub(crate) fn distance(self) -> Option<i16>
        ensures { result ≡ distance_of self }
    {
        match self {
            Instruction::Case { distance, .. } => Some(distance),
            Instruction::Lost { distance } => Some(distance),
            Instruction::Jump { distance } => Some(distance),
            _ => None,
        }
    }
}
