// Looking processes up by their names.
ghost use Rattle.std.specs.Prelude.{◌≡◌, ℕ, ◌<◌, ◌≤◌, length, Some, MatchOption};
ghost use Rattle.contracts.specs.Rules.{Never};
ghost use Rattle.scripts.specs.View.{ProcessNamed, scripts_in};

use super::ScriptSet;
use words::name::Name;

impl ScriptSet {
    /// The process with this name; none where no process has it. A name stands for at most one process.
    pub fn find_process(&self, name: Name) -> Option<usize>
        ensures answer { MatchOption result (Never (ProcessNamed (scripts_in self.now) name)) (ProcessNamed (scripts_in self.now) name) }
        ensures only { (p : ℕ) → ProcessNamed (scripts_in self.now) name p → result ≡ Some p }
    {
        self.scripts().iter().position(|script| script.name == name)
    }
}
