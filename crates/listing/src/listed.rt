// A full listing of what a small network allows, independent of the engines.
ghost use Rattle.std.specs.Prelude.{◌^◌, ◌<◌, ◌≤◌};

use network::{Arc, Capacity};

/// The nodes and arcs of a small network, under a limit.
#[derive(Clone, Copy)]
pub(crate) struct Listing<'a> {
    pub(crate) nodes: u8,
    pub(crate) arcs: &'a [Arc],
    pub(crate) limit: u32,
}

impl Listing<'_> {
    /// What an arc can carry.
    fn most_on(&self, arc: &Arc) -> u32 {
        match arc.capacity {
            Capacity::Fixed(most) => most,
            Capacity::Counted => self.limit,
        }
    }

    /// How many amounts an arc can carry, with 0.
    fn choices(&self, arc: &Arc) -> u64
        ensures some { 0 < result }
        ensures few { result ≤ 2 ^ 32 }
    {
        u64::from(self.most_on(arc)) + 1
    }

    /// What enters a node less what leaves it.
    fn balance(&self, flow: &[u32], node: u8) -> i64 {
        self.arcs.iter().zip(flow).fold(0, |sum: i64, (arc, x)| {
            if arc.head == node {
                sum.saturating_add(i64::from(*x))
            } else if arc.tail == node {
                sum.saturating_sub(i64::from(*x))
            } else {
                sum
            }
        })
    }

    /// What leaves a node.
    fn leaves(&self, flow: &[u32], node: u8) -> i64 {
        self.arcs
            .iter()
            .zip(flow)
            .filter(|(arc, _)| arc.tail == node)
            .fold(0, |sum: i64, (_, x)| sum.saturating_add(i64::from(*x)))
    }

    /// The size of a flow, if the list is one.
    pub(crate) fn size_of(&self, flow: &[u32]) -> Option<i64> {
        let fits = self
            .arcs
            .iter()
            .zip(flow)
            .all(|(arc, x)| *x <= self.most_on(arc));
        let is_flow = fits && (2..self.nodes).all(|node| self.balance(flow, node) == 0);
        is_flow.then(|| self.leaves(flow, 0))
    }

    /// How many lists of numbers keep to the capacities.
    fn lists(&self) -> u64 {
        self.arcs.iter().fold(1, |count: u64, arc| count.saturating_mul(self.choices(arc)))
    }

    /// The list with this number.
    fn list_at(&self, number: u64, flow: &mut [u32]) {
        let mut rest = number;
        for (arc, x) in self.arcs.iter().zip(flow.iter_mut()) {
            let choices = self.choices(arc);
            *x = (rest % choices) as u32;
            rest /= choices;
        }
    }

    /// The sizes of all flows, as a set: bit n stands for size n.
    pub(crate) fn sizes(&self, flow: &mut [u32]) -> u64 {
        let mut sizes = 0;
        for number in 0..self.lists() {
            self.list_at(number, flow);
            if let Some(size) = self.size_of(flow) {
                sizes |= bit(size);
            }
        }
        sizes
    }

    /// The capacity of a side, if the set of nodes is a side.
    pub(crate) fn side_capacity(&self, side: u64) -> Option<i64> {
        let beyond = side.checked_shr(u32::from(self.nodes)).unwrap_or(0);
        if side & 3 != 1 || beyond != 0 {
            return None;
        }
        let capacity = self
            .arcs
            .iter()
            .filter(|arc| has(side, arc.tail) && !has(side, arc.head))
            .fold(
                0,
                |sum: i64, arc| sum.saturating_add(i64::from(self.most_on(arc))),
            );
        Some(capacity)
    }

    /// The least capacity of all sides.
    pub(crate) fn least_capacity(&self) -> i64 {
        (0..64u64)
            .filter_map(|side| self.side_capacity(side))
            .min()
            .unwrap_or(i64::MAX)
    }
}

/// The set of one number; none for what is no number below 64.
pub(crate) fn bit(number: i64) -> u64 {
    u32::try_from(number)
        .ok()
        .and_then(|n| 1u64.checked_shl(n))
        .unwrap_or(0)
}

fn has(side: u64, node: u8) -> bool {
    node < 64 && (side >> node) & 1 == 1
}
