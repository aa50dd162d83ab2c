// Where the jumps of an accepted set lead.
ghost use Rattle.scripts.specs.View.{scripts_in, TargetOf};

use super::ScriptSet;
use crate::position::Position;

impl ScriptSet {
    /// Where the jump leads that is instruction `i` of a process (`case`, `lost` or `jump`): to one of 0 to the number of its
    /// instructions. None where there is no such instruction, or it is no jump.
    pub fn target(&self, process: usize, i: usize) -> Option<usize>
        ensures answer { TargetOf (scripts_in self.now) process i result }
    {
        let count = self.instruction_count(process)?;
        let instruction = self.instruction(process, i)?;
        let distance = instruction.distance()?;
        Position::new(i, count).target(distance)
    }
}
