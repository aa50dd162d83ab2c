// What an accepted set answers about its processes.
ghost use Rattle.std.specs.Prelude.{◌≡◌, ◌<◌, ◌≤◌, length, MatchOption};
ghost use Rattle.scripts.specs.Scripts.{instructions_of, script_at, script_of, scripts_of};
ghost use Rattle.scripts.specs.View.{OfInstruction, OfProcess, scripts_in};

use super::ScriptSet;
use crate::instruction::Instruction;
use crate::script::Script;
use contracts::set::ContractSet;
use words::name::Name;

impl ScriptSet {
    /// The contract set that the scripts were read against.
    pub fn contracts(&self) -> &ContractSet
        ensures { result.now ≡ self.now.contracts }
    {
        &self.contracts
    }

    // The scripts of the processes.
    pub(super) fn scripts(&self) -> &[Script]
        ensures scripts { scripts_of result.now ≡ scripts_in self.now }
        ensures count { length result.now ≡ length (scripts_in self.now) }
    {
        self.scripts.as_slice()
    }

    /// How many processes there are: 1 to 8.
    pub fn process_count(&self) -> usize
        ensures answer { result ≡ length (scripts_in self.now) }
        ensures some { 0 < result }
        ensures few { result ≤ 8 }
    {
        self.scripts().len()
    }

    // The script of a process; none where there is no such process.
    fn script(&self, process: usize) -> Option<&Script>
        ensures { MatchOption result (length (scripts_in self.now) ≤ process)
            (λ s. (process < length (scripts_in self.now)) × (script_of s.now ≡ script_at (scripts_in self.now) process)) }
    {
        self.scripts().get(process)
    }

    /// The name of a process; none where there is no such process.
    pub fn process_name(&self, process: usize) -> Option<Name>
        ensures answer { OfProcess (scripts_in self.now) process (script_at (scripts_in self.now) process).name result }
    {
        Some(self.script(process)?.name)
    }

    /// How many instructions a process has, at most 64; none where there is no such process.
    pub fn instruction_count(&self, process: usize) -> Option<usize>
        ensures answer { OfProcess (scripts_in self.now) process (length (instructions_of (scripts_in self.now) process)) result }
    {
        Some(self.script(process)?.instructions.as_slice().len())
    }

    /// An instruction of a process; none where there is no such process or instruction.
    pub fn instruction(&self, process: usize, i: usize) -> Option<Instruction>
        ensures answer { OfInstruction (scripts_in self.now) process i result }
    {
        let script = self.script(process)?;
        script.instructions.as_slice().get(i).copied()
    }
}
