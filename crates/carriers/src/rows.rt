// A row of messages for each box.
ghost use Rattle.std.specs.Prelude.{◌≡◌, length};
ghost use Rattle.carriers.specs.Waiting.{waiting_in, waiting-ranged};
ghost use Rattle.std.proofs.Common.{rules};

use crate::box_number::BoxNumber;
use crate::limit::Limit;
use crate::message::Message;
use crate::row::Row;
use crate::store::Store;

/// A row of messages for each of 64 boxes, so that each box can have 15 whatever the others have.
#[derive(Drop)]
pub struct Rows {
    /// The row of each box.
    rows: [Row; 64],
}

impl Store for Rows {
    const POOL: u16 = 960;

    ghost POOL = { 960 };

    ghost waiting = { λ s. waiting_in s.rows };

    ghost bounds = { Prim.search rules };

    ghost ranged = { λ s b. waiting-ranged s.rows b };

    fn new() -> Rows {
        Rows {
            rows: [Row::new(); 64],
        }
    }

    fn count(&self, b: BoxNumber) -> u8 {
        self.rows[b.index()].count()
    }

    fn try_push(&mut self, b: BoxNumber, limit: Limit, message: Message) -> Result<(), Message> {
        let row = &mut self.rows[b.index()];
        if row.count() >= u8::from(limit) || !message.is_ranged() {
            return Err(message);
        }
        row.push(message);
        Ok(())
    }

    fn try_pop(&mut self, b: BoxNumber) -> Option<Message> {
        let row = &mut self.rows[b.index()];
        if row.count() == 0 {
            return None;
        }
        Some(row.pop())
    }

    fn clear(&mut self, b: BoxNumber) {
        self.rows[b.index()].clear();
    }
}
