// What holds of the scripts of every accepted set.
ghost use Rattle.std.specs.Prelude.{◌≡◌, ℕ, ◌<◌, ◌≤◌, length};
ghost use Rattle.contracts.specs.View.{tables_in};
ghost use Rattle.scripts.specs.Runnable.{Runnable};
ghost use Rattle.scripts.specs.Scripts.{instructions_of, script_at};
ghost use Rattle.scripts.specs.View.{instruction_at, scripts_in};

use super::ScriptSet;

impl ScriptSet {
    /// Does nothing: its contract has the laws of every accepted set, for those who build on one.
    pub fn laws(&self)
        ensures some { 0 < length (scripts_in self.now) }
        ensures few { length (scripts_in self.now) ≤ 8 }
        ensures short { (p : ℕ) → length (instructions_of (scripts_in self.now) p) ≤ 64 }
        ensures one_name { (p q : ℕ) → p < length (scripts_in self.now) → q < length (scripts_in self.now)
            → (script_at (scripts_in self.now) p).name ≡ (script_at (scripts_in self.now) q).name → p ≡ q }
        ensures runnable { (p i : ℕ) → i < length (instructions_of (scripts_in self.now) p)
            → Runnable (tables_in self.now.contracts) (length (instructions_of (scripts_in self.now) p)) i (instruction_at (scripts_in self.now) p i) }
    {}
}
