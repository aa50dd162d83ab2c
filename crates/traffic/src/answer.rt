// What a carrier answers to a call.
use crate::call::Call;
use carriers::carrier::Carrier;
use carriers::message::Message;
use carriers::refusal::CarrierRefusal;
use std::fmt;

/// What an accepted call answers.
#[derive(Clone, Copy)]
pub(crate) enum Answer {
    Done,
    Number(u16),
    Message(Message),
}

impl fmt::Display for Answer {
    fn fmt<W: fmt::Write>(&self, f: &mut fmt::Formatter<W>) -> fmt::Result {
        match *self {
            Answer::Done => write!(f, "ok"),
            Answer::Number(n) => write!(f, "{n}"),
            Answer::Message(
                Message {
                    number,
                    payload: None,
                },
            ) => write!(f, "message {number}"),
            Answer::Message(
                Message {
                    number,
                    payload: Some(slot),
                },
            ) => write!(f, "message {number} slot {slot}"),
        }
    }
}

/// What a call answers, accepted or refused, as it is printed.
#[derive(Clone, Copy)]
pub(crate) struct Outcome(pub(crate) Result<Answer, CarrierRefusal>);

impl fmt::Display for Outcome {
    fn fmt<W: fmt::Write>(&self, f: &mut fmt::Formatter<W>) -> fmt::Result {
        match self.0 {
            Ok(answer) => write!(f, "{answer}"),
            Err(refusal) => write!(f, "{refusal}"),
        }
    }
}

/// Makes a call, and says what the carrier answers.
pub(crate) fn make<C: Carrier>(carrier: &mut C, call: Call) -> Result<Answer, CarrierRefusal> {
    match call {
        Call::Open(b, limit) => carrier.open(b, limit).map(|()| Answer::Done),
        Call::Put(b, message) => carrier.put(b, message).map(|()| Answer::Done),
        Call::Take(b) => carrier.take(b).map(Answer::Message),
        Call::Count(b) => carrier.count(b).map(|n| Answer::Number(n.into())),
        Call::Slack(b) => carrier.slack(b).map(|n| Answer::Number(n.into())),
        Call::Spare => Ok(Answer::Number(carrier.spare())),
        Call::Close(b) => carrier.close(b).map(|()| Answer::Done),
    }
}
