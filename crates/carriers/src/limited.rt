// A carrier over any store.
ghost use Rattle.std.specs.Prelude.{◌≡◌, ◌+◌, replicate};
ghost use Rattle.carriers.specs.Boxes.{closed};
ghost use Rattle.carriers.specs.Limits.{allotted};
ghost use Rattle.carriers.specs.Stores.{Within};
ghost use Rattle.carriers.specs.Tables.{boxes_from};
ghost use Rattle.carriers.specs.Tabled.{limited-kept};

use crate::box_number::BoxNumber;
use crate::carrier::Carrier;
use crate::limit::Limit;
use crate::limits::Limits;
use crate::message::Message;
use crate::refusal::CarrierRefusal;
use crate::store::Store;

/// A carrier that keeps its messages in a store, with limits that together are what the store can have.
#[derive(Drop)]
pub struct Limited<S: Store> {
    /// Which boxes are open, with which limits.
    limits: Limits,
    /// What waits in the boxes.
    store: S,
    ghost pool: { limits.spare + allotted limits.limits ≡ S.POOL },
    ghost few: { Within limits.limits (S.waiting store) },
}

impl<S: Store> Limited<S> {
    /// A carrier with all boxes closed.
    pub fn new() -> Limited<S>
        ensures boxes { boxes_from result.limits.limits (S.waiting result.store) ≡ replicate 64 closed }
    {
        Limited {
            limits: Limits::new(S::POOL),
            store: S::new(),
        }
    }
}

impl<S: Store> Carrier for Limited<S> {
    const POOL: u16 = S::POOL;

    ghost POOL = { S.POOL };

    ghost boxes = { λ c. boxes_from c.limits.limits (S.waiting c.store) };

    ghost bounds = { S.bounds };

    ghost kept = { λ c. limited-kept c.limits.limits (S.waiting c.store) c.limits.sizes c.few S.POOL c.limits.spare c.limits.low (S.ranged c.store) c.pool };

    fn open(&mut self, b: u8, limit: u8) -> Result<(), CarrierRefusal> {
        self.limits.draw(b, limit)
    }

    fn put(&mut self, b: u8, message: Message) -> Result<(), CarrierRefusal> {
        let at = BoxNumber::try_from(b)?;
        if !message.is_ranged() {
            return Err(CarrierRefusal::OutOfRange);
        }
        let limit = Limit::new(self.limits.of_open(b)?);
        match self.store.try_push(at, limit, message) {
            Ok(()) => Ok(()),
            Err(_) => Err(CarrierRefusal::FullOrEmpty),
        }
    }

    fn take(&mut self, b: u8) -> Result<Message, CarrierRefusal> {
        let at = BoxNumber::try_from(b)?;
        self.limits.of_open(b)?;
        self.store.try_pop(at).ok_or(CarrierRefusal::FullOrEmpty)
    }

    fn count(&self, b: u8) -> Result<u8, CarrierRefusal> {
        let at = BoxNumber::try_from(b)?;
        Ok(self.store.count(at))
    }

    fn slack(&self, b: u8) -> Result<u8, CarrierRefusal> {
        let at = BoxNumber::try_from(b)?;
        let limit = self.limits.at(b)?;
        Ok(limit - self.store.count(at))
    }

    fn spare(&self) -> u16 {
        self.limits.spare()
    }

    fn close(&mut self, b: u8) -> Result<(), CarrierRefusal> {
        let at = BoxNumber::try_from(b)?;
        self.limits.give_back(b)?;
        self.store.clear(at);
        Ok(())
    }
}
