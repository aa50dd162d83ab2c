// Cells linked into chains.
ghost use Rattle.std.specs.Prelude.{◌≡◌, ℕ, ◌+◌, ◌-◌, ◌<◌, ◌≤◌, length, sum, ◌≢◌, MatchOption};
ghost use Rattle.std.specs.Option.{ForSome};
ghost use Rattle.chained.specs.Chains.{count_in, tail_in, counts, count_of, cell, Below, Apart, Ends, Linked, Moved, Cleared};

use std::array;

/// The chain of the free cells.
pub(crate) const FREE: u8 = 64;

/// A chain that has cells. It is told by its first cell, each further cell by the link of the one before it, and the
/// chain's end by its count; what the last cell links to means nothing.
#[derive(Clone, Copy)]
pub(crate) struct Chain {
    /// The first cell.
    head: u8,
    /// The last cell.
    tail: u8,
    /// How many cells the chain has.
    count: u8,
}

impl Chain {
    /// Links the chain behind `front`, or puts it there where that has no cells.
    fn link(&self, front: &mut Option<Chain>, next: &mut [u8; 128])
        requires end { tail_in front.old < 128 }
        requires fits { count_in front.old + self.now.count ≤ 128 }
        ensures { Linked front.old self.now next.old front.new next.new }
    {
        match front {
            Some(chain) => {
                let end = chain.tail;
                chain.tail = self.tail;
                chain.count += self.count;
                next[end as usize] = self.head;
            }
            None => *front = Some(*self),
        }
    }

    /// Leaves what is behind the first n cells of a chain, of which `next` comes first.
    fn cut(chain: &mut Option<Chain>, n: u8, next: u8)
        ensures none { ForSome chain.old (λ u. u.count ≤ n → chain.new ≡ None) }
        ensures left { ForSome chain.old (λ u. n < u.count → chain.new ≡ Some (record { head = next; tail = u.tail; count = u.count - n })) }
    {
        match chain {
            Some(rest) if rest.count > n => {
                rest.head = next;
                rest.count -= n;
            }
            _ => *chain = None,
        }
    }
}

/// 128 cells in 65 chains: one for each box, and the last for the cells that are free.
// The memory of a carrier is fixed: all boxes share one table of cells, and a cell names the one behind it by its place.
#[derive(Drop)]
pub(crate) struct Tables {
    /// The cell behind each cell.
    // The messages lie in a table of their own: what is said of the chains then holds whatever is put into a cell.
    next: [u8; 128],
    /// Each chain, none where it has no cells.
    chains: [Option<Chain>; 65],
}

/// Cells of which each stands at one place of one chain.
#[derive(Drop)]
pub(crate) struct Links {
    tables: Tables,
    ghost sizes: { (length tables.next ≡ 128) × (length tables.chains ≡ 65) },
    ghost below: { Below tables },
    ghost apart: { Apart tables },
    ghost ends: { Ends tables },
    ghost total: { sum (counts tables) ≡ 128 },
}

impl Links {
    /// All cells free, in their order.
    pub(crate) fn new() -> Links
        ensures counts { (a : ℕ) → a < 64 → count_of result.tables a ≡ 0 }
    {
        let next = array::from_fn(
            |i|
                requires { i < 128 }
            { i as u8 + 1 },
        );
        let mut chains = [None; 65];
        chains[64] = Some(Chain {
            head: 0,
            tail: 127,
            count: 128,
        });
        Links {
            tables: Tables { next, chains },
        }
    }

    /// How many cells a chain has.
    pub(crate) fn count(&self, a: u8) -> u8
        requires numbered { a < 65 }
        ensures answer { result ≡ count_of self.now.tables a }
    {
        self.tables.chains[a as usize].map_or(0, |chain| chain.count)
    }

    /// Takes the first cells of a chain, which are those of `part`, to the end of another.
    fn relink(&mut self, from: u8, to: u8, part: &Chain)
        requires numbered { (from < 65) × ((to < 65) × ((from ≢ to))) }
        requires some { (0 < part.now.count) × (part.now.count ≤ count_of self.old.tables from) }
        requires first { part.now.head ≡ cell self.old.tables from 0 }
        requires last { part.now.tail ≡ cell self.old.tables from (part.now.count - 1) }
        ensures moved { Moved self.old.tables from to part.now.count self.new.tables }
    {
        let after = self.tables.next[part.tail as usize];
        Chain::cut(&mut self.tables.chains[from as usize], part.count, after);
        part.link(&mut self.tables.chains[to as usize], &mut self.tables.next);
    }

    /// Takes the first cell of a chain to the end of another, and answers it; none, with nothing changed, where the chain
    /// has no cells.
    pub(crate) fn shift(&mut self, from: u8, to: u8) -> Option<u8>
        requires numbered { (from < 65) × ((to < 65) × ((from ≢ to))) }
        ensures first { MatchOption result
            (count_of self.old.tables from ≡ 0)
            (λ x. (0 < count_of self.old.tables from) × (x ≡ cell self.old.tables from 0)) }
        ensures moved { MatchOption result
            (self.new.tables ≡ self.old.tables)
            (λ _. Moved self.old.tables from to 1 self.new.tables) }
    {
        let Some(chain) = self.tables.chains[from as usize] else {
            return None;
        };
        let first = chain.head;
        let part = Chain {
            head: first,
            tail: first,
            count: 1,
        };
        self.relink(from, to, &part);
        Some(first)
    }

    /// Gives all cells of a box's chain back to the free ones.
    pub(crate) fn clear(&mut self, b: u8)
        requires numbered { b < 64 }
        ensures cleared { Cleared self.old.tables b self.new.tables }
    {
        if let Some(chain) = self.tables.chains[b as usize] {
            self.relink(b, FREE, &chain);
        }
    }
}
