// The calls of a carrier as lines of a text.
use carriers::message::Message;
use std::error::Error;
use std::fmt;
use std::num::ParseIntError;
use std::str::{FromStr, SplitWhitespace};

/// A call, with the numbers that it is made with.
#[derive(Clone, Copy)]
pub(crate) enum Call {
    Open(u8, u8),
    Put(u8, Message),
    Take(u8),
    Count(u8),
    Slack(u8),
    Spare,
    Close(u8),
}

/// A line that says no call.
#[derive(Clone, Copy, Debug)]
pub(crate) struct NotACall;

impl fmt::Display for NotACall {
    fn fmt<W: fmt::Write>(&self, f: &mut fmt::Formatter<W>) -> fmt::Result {
        write!(f, "not a call")
    }
}

impl Error for NotACall {}

impl From<ParseIntError> for NotACall {
    fn from(_: ParseIntError) -> NotACall {
        NotACall
    }
}

// The next word, which is a number below 256.
fn number(words: &mut SplitWhitespace) -> Result<u8, NotACall> {
    Ok(words.next().ok_or(NotACall)?.parse()?)
}

// The next word, which is a payload: a slot, or `-` for none.
fn payload(words: &mut SplitWhitespace) -> Result<Option<u8>, NotACall> {
    match words.next().ok_or(NotACall)? {
        "-" => Ok(None),
        slot => Ok(Some(slot.parse()?)),
    }
}

impl FromStr for Call {
    type Err = NotACall;

    /// The call that a line says: a name, and its numbers behind it.
    fn from_str(line: &str) -> Result<Call, NotACall> {
        let mut words = line.split_whitespace();
        match words.next().ok_or(NotACall)? {
            "open" => Ok(Call::Open(number(&mut words)?, number(&mut words)?)),
            "put" => {
                let b = number(&mut words)?;
                let message = Message {
                    number: number(&mut words)?,
                    payload: payload(&mut words)?,
                };
                Ok(Call::Put(b, message))
            }
            "take" => Ok(Call::Take(number(&mut words)?)),
            "count" => Ok(Call::Count(number(&mut words)?)),
            "slack" => Ok(Call::Slack(number(&mut words)?)),
            "spare" => Ok(Call::Spare),
            "close" => Ok(Call::Close(number(&mut words)?)),
            _ => Err(NotACall),
        }
    }
}
