// The rules on moves as they are written: their marks, and one for each state and message.
ghost use Rattle.std.specs.Prelude.{◌<◌, length, Decides, MatchOption};
ghost use Rattle.contracts.specs.Rules.{First, Never};
ghost use Rattle.contracts.specs.Written.{MixedMarks, SameState, SecondMove, WrongMark};

use crate::by_numbers::ByNumbers;
use crate::declaration::Written;

// Has the move `i` another mark than its message?
fn is_wrong(file: &ByNumbers, i: usize) -> bool
    requires { i < length file.now.moves.now }
    ensures { Decides result (WrongMark file.now.declarations.now file.now.moves.now i) }
{
    let w = &file.moves[i];
    w.mark != file.declarations[w.contract].messages.as_slice()[w.message].mark
}

/// The first move with another mark than its message.
pub(crate) fn first_wrong_mark(file: &ByNumbers) -> Option<usize>
    ensures { MatchOption result (Never (WrongMark file.now.declarations.now file.now.moves.now)) (First (WrongMark file.now.declarations.now file.now.moves.now)) }
{
    (0..file.moves.len()).find(|&i| is_wrong(file, i))
}

// Are the two moves of one state?
fn same_state(v: &Written, w: &Written) -> bool
    ensures { Decides result (SameState v.now w.now) }
{
    v.contract == w.contract && v.state == w.state
}

// Is the move `i` for the same state and message as an earlier one?
fn is_second(moves: &[Written], i: usize) -> bool
    requires { i < length moves.now }
    ensures { Decides result (SecondMove moves.now i) }
{
    let w = &moves[i];
    moves[..i]
        .iter()
        .any(|v| same_state(v, w) && v.message == w.message)
}

/// The first move for the same state and message as an earlier one.
pub(crate) fn first_second_move(moves: &[Written]) -> Option<usize>
    ensures { MatchOption result (Never (SecondMove moves.now)) (First (SecondMove moves.now)) }
{
    (0..moves.len()).find(|&i| is_second(moves, i))
}

// Has the move `i` another mark than its state's first move?
fn mixes_marks(moves: &[Written], i: usize) -> bool
    requires { i < length moves.now }
    ensures { Decides result (MixedMarks moves.now i) }
{
    let w = &moves[i];
    moves[..i]
        .iter()
        .find(|v| same_state(v, w))
        .is_some_and(|v| v.mark != w.mark)
}

/// The first move with another mark than its state's first move.
pub(crate) fn first_mixed_marks(moves: &[Written]) -> Option<usize>
    ensures { MatchOption result (Never (MixedMarks moves.now)) (First (MixedMarks moves.now)) }
{
    (0..moves.len()).find(|&i| mixes_marks(moves, i))
}
