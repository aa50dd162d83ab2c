// Messages in cells that all boxes share.
ghost use Rattle.std.specs.Prelude.{◌≡◌, length};
ghost use Rattle.chained.specs.Chained.{waiting, AllRanged};
ghost use Rattle.chained.specs.Cells.{waiting-ranged};
ghost use Rattle.std.proofs.Common.{rules};

use crate::links::{FREE, Links};
use carriers::box_number::BoxNumber;
use carriers::limit::Limit;
use carriers::message::Message;
use carriers::store::Store;

/// 128 cells, one for each message, which any box can have.
#[derive(Drop)]
pub struct Cells {
    /// Which cells belong to which box, in which order.
    links: Links,
    /// The message in each cell.
    messages: [Message; 128],
    ghost size: { length messages ≡ 128 },
    ghost ranged: { AllRanged messages },
}

impl Store for Cells {
    const POOL: u16 = 128;

    ghost POOL = { 128 };

    ghost waiting = { λ c. waiting c.messages c.links };

    ghost bounds = { Prim.search rules };

    ghost ranged = { λ c b. waiting-ranged c.messages c.links b c.ranged };

    fn new() -> Cells {
        let blank = Message {
            number: 0,
            payload: None,
        };
        Cells {
            links: Links::new(),
            messages: [blank; 128],
        }
    }

    fn count(&self, b: BoxNumber) -> u8 {
        self.links.count(u8::from(b))
    }

    fn try_push(&mut self, b: BoxNumber, limit: Limit, message: Message) -> Result<(), Message> {
        let chain = u8::from(b);
        if self.links.count(chain) >= u8::from(limit) || !message.is_ranged() {
            return Err(message);
        }
        let Some(cell) = self.links.shift(FREE, chain) else {
            return Err(message);
        };
        self.messages[cell as usize] = message;
        Ok(())
    }

    fn try_pop(&mut self, b: BoxNumber) -> Option<Message> {
        let cell = self.links.shift(u8::from(b), FREE)?;
        Some(self.messages[cell as usize])
    }

    fn clear(&mut self, b: BoxNumber) {
        self.links.clear(u8::from(b));
    }
}
