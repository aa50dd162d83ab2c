// The listing of an accepted set of scripts: a line for each process and instruction.
ghost use Rattle.std.specs.Prelude.{◌≡◌, length, IfOk, Some, string_bytes};
ghost use Rattle.scripts.specs.Scripts.{instructions_of};
ghost use Rattle.scripts.specs.View.{instruction_at, scripts_in};
ghost use Rattle.script_listing.specs.Scripts.{instruction_text, process_lines, process_text, scripts_text};

use listing::parts::{AllParts, Parts};
use listing::shown::ShownName;
use scripts::instruction::Instruction;
use scripts::set::ScriptSet;
use std::alloc::{AllocError, Global};
use std::fmt;
use words::name::Name;

// The line of an instruction.
#[derive(Clone, Copy)]
struct InstructionLine(Instruction);

impl fmt::Display for InstructionLine {
    ghost output = { λ line. Some (instruction_text line.0) };

    fn fmt<W: fmt::Write>(&self, f: &mut fmt::Formatter<W>) -> fmt::Result {
        match self.0 {
            Instruction::New { register } => writeln!(f, " new {register}"),
            Instruction::Put {
                register,
                place,
                byte,
            } => writeln!(f, " put {register} {place} {byte}"),
            Instruction::Free { register } => writeln!(f, " free {register}"),
            Instruction::Open {
                contract,
                exporting,
                importing,
            } => writeln!(f, " open {contract} {exporting} {importing}"),
            Instruction::Close { register } => writeln!(f, " close {register}"),
            Instruction::Send {
                end,
                contract,
                message,
            } => writeln!(f, " send {end} {contract} {message}"),
            Instruction::Pass {
                end,
                contract,
                message,
                payload,
            } => writeln!(f, " pass {end} {contract} {message} {payload}"),
            Instruction::Receive { end, payload } => writeln!(f, " receive {end} {payload}"),
            Instruction::Case {
                contract,
                message,
                distance,
            } => writeln!(f, " case {contract} {message} {distance}"),
            Instruction::Lost { distance } => writeln!(f, " lost {distance}"),
            Instruction::Jump { distance } => writeln!(f, " jump {distance}"),
            Instruction::End => f.write_str(" end\n"),
        }
    }
}

// The instructions of a process of a set.
#[derive(Clone, Copy)]
struct Instructions<'a> {
    set: &'a ScriptSet,
    process: usize,
}

impl Parts for Instructions<'_> {
    type Part = InstructionLine;

    ghost part_count = { λ all. length (instructions_of (scripts_in all.set.now) all.process) };

    ghost part_text = { λ all i. instruction_text (instruction_at (scripts_in all.set.now) all.process i) };

    fn part_count(&self) -> usize {
        self.set.instruction_count(self.process).unwrap_or(0)
    }

    fn part(&self, i: usize) -> Option<InstructionLine> {
        Some(InstructionLine(self.set.instruction(self.process, i)?))
    }
}

// A process by its name and its instructions.
#[derive(Clone, Copy)]
struct ProcessLines<'a> {
    name: Name,
    instructions: Instructions<'a>,
}

impl fmt::Display for ProcessLines<'_> {
    ghost output = { λ p. Some (process_lines (scripts_in p.instructions.set.now) p.instructions.process p.name (length (instructions_of (scripts_in p.instructions.set.now) p.instructions.process))) };

    fn fmt<W: fmt::Write>(&self, f: &mut fmt::Formatter<W>) -> fmt::Result {
        let name = ShownName(self.name);
        let instructions = AllParts(self.instructions);
        write!(f, "process {name}\n{instructions}")
    }
}

// The processes of a set.
#[derive(Clone, Copy)]
struct Processes<'a>(&'a ScriptSet);

impl<'a> Parts for Processes<'a> {
    type Part = ProcessLines<'a>;

    ghost part_count = { λ all. length (scripts_in all.0.now) };

    ghost part_text = { λ all. process_text (scripts_in all.0.now) };

    fn part_count(&self) -> usize {
        self.0.process_count()
    }

    fn part(&self, p: usize) -> Option<ProcessLines<'a>> {
        Some(ProcessLines {
            name: self.0.process_name(p)?,
            instructions: Instructions {
                set: self.0,
                process: p,
            },
        })
    }
}

/// The listing of a set: each process by its name, and below it each instruction on a line of its own, with numbers in
/// place of names.
pub fn list_scripts(heap: Global, set: &ScriptSet) -> Result<String, AllocError>
    ensures { IfOk result (λ s. string_bytes s ≡ scripts_text (scripts_in set.now)) }
{
    AllParts(Processes(set)).to_string(heap)
}
