//! A node that finds no memory for one of its calls, or for marks.

use cbt_base::NoMemory;
use cbt_model::{Answer, Kept, Node, Step};

#[derive(Drop)]
pub struct Refusing<N> {
    pub node: N,
    /// How many calls it makes before it refuses one.
    pub before: u64,
    pub marks: bool,
}

impl<N: Node> Node for Refusing<N> {
    ghost opening = { λ n. N.opening n.node };

    ghost history = { λ n. N.history n.node };

    ghost marks = { λ n. N.marks n.node };

    ghost terms = { λ n. N.terms n.node };

    ghost reads_by = { λ n f. N.reads_by n.node f };

    fn call(&mut self, actor: u32, step: Step) -> Result<Answer, NoMemory> {
        if self.before == 0 {
            self.before = u64::MAX;
            return Err(NoMemory);
        }
        self.before -= 1;
        self.node.call(actor, step)
    }

    fn advance(&mut self, ms: u64) -> Result<(), NoMemory> {
        if !self.marks {
            return Err(NoMemory);
        }
        self.node.advance(ms)
    }

    fn finish(self) -> Kept {
        let Refusing {
            node,
            before: _,
            marks: _,
        } = self;
        node.finish()
    }

    ghost keeps_terms = { λ n. N.keeps_terms n.node };

    ghost stays_short = { λ n. N.stays_short n.node };

    ghost reads_right = { λ n. N.reads_right n.node };
}
