// Any carrier by its contracts alone, and the edges of both.
ghost use Rattle.std.specs.Prelude.{◌≡◌, ◌+◌, ◌<◌, ◌≤◌, false, Ok};
ghost use Rattle.carriers.specs.Boxes.{box_at, is_open, all_limits, Ranged};

use carriers::box_number::BoxNumber;
use carriers::carrier::Carrier;
use carriers::copying::Copying;
use carriers::limited::Limited;
use carriers::message::Message;
use carriers::refusal::CarrierRefusal;
use carriers::store::Store;
use chained::chained::Chained;
use std::process::Abort;

// Opens a closed box for two messages, puts two, takes one and closes the box again. Over every carrier with enough spare
// it answers the first message, and leaves all boxes as they were.
fn relay<C: Carrier>(
    carrier: &mut C,
    b: u8,
    first: Message,
    second: Message,
) -> Result<Message, CarrierRefusal>
    ensures done { b < 64 → is_open (box_at (C.Carrier.boxes carrier.old) b) ≡ false → all_limits (C.Carrier.boxes carrier.old) + 2 ≤ C.Carrier.POOL →
        Ranged first → Ranged second → (result ≡ Ok first) × (C.Carrier.boxes carrier.new ≡ C.Carrier.boxes carrier.old) }
{
    carrier.open(b, 2)?;
    carrier.put(b, first)?;
    carrier.put(b, second)?;
    let taken = carrier.take(b)?;
    carrier.close(b)?;
    Ok(taken)
}

// A message of a number with a slot.
fn numbered(number: u8, slot: u8) -> Message {
    Message {
        number,
        payload: Some(slot),
    }
}

// Fills eight boxes with 15 messages each, and a ninth with 8.
fn fill<C: Carrier>(rt: &impl Abort, carrier: &mut C) {
    for b in 0..9u8 {
        let limit = if b < 8 { 15 } else { 8 };
        assert_eq!(rt; carrier.open(b, limit), Ok(()));
        for k in 0..limit {
            assert_eq!(rt; carrier.put(b, numbered(k, b)), Ok(()));
        }
        assert_eq!(rt;
            carrier.put(b, numbered(0, b)),
            Err(CarrierRefusal::FullOrEmpty)
        );
    }
}

// Takes all messages of the nine boxes, in their order.
fn empty<C: Carrier>(rt: &impl Abort, carrier: &mut C) {
    for b in 0..9u8 {
        let limit = if b < 8 { 15 } else { 8 };
        for k in 0..limit {
            assert_eq!(rt; carrier.take(b), Ok(numbered(k, b)));
        }
        assert_eq!(rt; carrier.take(b), Err(CarrierRefusal::FullOrEmpty));
    }
}

// A new store of the kind that the carrier has takes 15 messages in a box and gives them back in their order. A message out of
// its range changes nothing, nor does a 16th, and of the empty box the answer is the message of number 0 without a payload.
fn store_and_return<S: Store>(rt: &impl Abort, _carrier: &Limited<S>, b: BoxNumber) {
    let mut store = S::new();
    store.push(b, numbered(16, 0));
    for k in 0..16u8 {
        store.push(b, numbered(k, k));
    }
    for k in 0..15u8 {
        assert_eq!(rt; store.pop(b), numbered(k, k));
    }
    let blank = Message {
        number: 0,
        payload: None,
    };
    assert_eq!(rt; store.pop(b), blank);
    assert_eq!(rt; store.count(b), 0);
}

#[test]
fn a_relay_answers_the_first_over_both(rt: HostRuntime) {
    assert_eq!(rt;
        relay(&mut Chained::new(), 5, numbered(1, 2), numbered(3, 4)),
        Ok(numbered(1, 2))
    );
    assert_eq!(rt;
        relay(&mut Copying::new(), 63, numbered(15, 63), numbered(3, 4)),
        Ok(numbered(15, 63))
    );
}

#[test]
fn all_cells_in_use_leave_no_spare(rt: HostRuntime) {
    let mut carrier = Chained::new();
    fill(&rt, &mut carrier);
    assert_eq!(rt; carrier.spare(), 0);
    assert_eq!(rt; carrier.open(9, 1), Err(CarrierRefusal::NoSpare));
    assert_eq!(rt; carrier.open(9, 0), Ok(()));
    empty(&rt, &mut carrier);
}

#[test]
fn the_same_boxes_leave_832_to_a_copying_carrier(rt: HostRuntime) {
    let mut carrier = Copying::new();
    fill(&rt, &mut carrier);
    assert_eq!(rt; carrier.spare(), 832);
    empty(&rt, &mut carrier);
}

#[test]
fn a_full_carrier_and_a_full_box_refuse_by_33_and_32(rt: HostRuntime) {
    assert_eq!(rt; u8::from(CarrierRefusal::NoSpare), 33);
    assert_eq!(rt; u8::from(CarrierRefusal::FullOrEmpty), 32);
}

#[test]
fn both_stores_give_messages_back_in_their_order(rt: HostRuntime) {
    let b = BoxNumber::try_from(63).unwrap();
    store_and_return(&rt, &Chained::new(), b);
    store_and_return(&rt, &Copying::new(), b);
}
