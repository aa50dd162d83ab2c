// Which rule on contracts is broken first, and by what.

/// The first rule from 9 to 14 that is broken, with the first move, or contract and state or message, that breaks it.
#[derive(Clone, Copy)]
pub enum Broken {
    /// 9: this move's mark disagrees with its message.
    WrongMark(usize),
    /// 10: this move is a second one of its state for one message.
    SecondMove(usize),
    /// 11: this move's mark differs from that of its state's first move.
    MixedMarks(usize),
    /// 12: of this contract this state cannot be reached from state 0.
    Unreachable(usize, usize),
    /// 13: of this contract this state lies on a one-way cycle.
    OneWayCycle(usize, usize),
    /// 14: of this contract this message carries an end in a state where that end may not send.
    SilentEnd(usize, usize),
}
