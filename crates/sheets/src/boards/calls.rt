// Making a board, and what it gives: its total, its network and the rows of its sheet.
ghost use Rattle.std.specs.Prelude.{◌≡◌, ℕ, ◌<◌, ◌≤◌, map, length, Ok, Err, slice_index};
ghost use Rattle.network.specs.Nets.{arcs_of};
ghost use Rattle.sheets.specs.Boards.{entered, total, node_count, board_arcs, piece_of, row_of};
ghost use Rattle.sheets.specs.Laws.{Sized};
ghost use Rattle.sheets.specs.Made.{orders_of, nozzles_of, Refused};

use crate::boards::picks::Pick;
use crate::boards::{Board, BoardFault};
use crate::{NozzleState, Order};
use arrayvec::ArrayVec;
use flows::Arc;
use network::{Amount, Network};
use records::{MOST_NOZZLES, MOST_TYPES, TypeRecord};

impl Board {
    /// The board of a book, or why there is none. A figure that was not entered is never filled in.
    pub fn of(types: &[TypeRecord], nozzles: &[NozzleState]) -> Result<Board, BoardFault>
        ensures { elim result [ Ok b ↦ (types.now ≡ map entered (orders_of b)) × (nozzles.now ≡ nozzles_of b) | Err e ↦ Refused types.now nozzles.now e ] }
    {
        if !(1..=usize::from(MOST_TYPES)).contains(&types.len())
            || !(1..=usize::from(MOST_NOZZLES)).contains(&nozzles.len())
        {
            return Err(BoardFault::BadSize);
        }
        let first = Order::try_from(types[0]).map_err(|_| BoardFault::NotEntered { kind: 1 })?;
        // a whole table, of which the orders are kept: it costs less than a push into blanks
        let mut table = [first; 24];
        for (t, record) in types.iter().enumerate() {
            let kind = t as u8 + 1;
            let order = Order::try_from(*record).map_err(|_| BoardFault::NotEntered { kind })?;
            table[t] = order;
        }
        let mut orders = ArrayVec::from_array_in(first, table);
        orders.truncate(types.len());
        let nozzles = ArrayVec::try_from(nozzles).unwrap();
        Ok(Board { orders, nozzles })
    }

    /// How many pieces all orders ask for.
    pub fn total(&self) -> Amount
        ensures { result.value ≡ total (orders_of self.now) }
    {
        let mut sum = 0;
        for order in self.orders.as_slice() {
            sum += order.pieces();
        }
        Amount::try_from(sum).unwrap()
    }

    // The arcs of the network, in order. Quantities and limits, as they are read, have two bytes.
    fn arcs(&self) -> ArrayVec<Arc, 256>
        ensures arcs { result.items ≡ board_arcs (orders_of self.now) (nozzles_of self.now) }
        ensures sized { Sized (orders_of self.now) (nozzles_of self.now) }
    {
        let orders = self.orders.as_slice();
        let nozzles = self.nozzles.as_slice();
        let all = self.total().value();
        let first = orders.len() + 2;
        let mut arcs = ArrayVec::new();
        for (t, order) in orders.iter().enumerate() {
            arcs.push(Arc::fixed(0, (t + 2) as u8, order.pieces()));
        }
        for (t, order) in orders.iter().enumerate() {
            let most = order.most(all);
            for (j, nozzle) in nozzles.iter().enumerate() {
                if order.goes_to(nozzle, j as u8) {
                    arcs.push(Arc::fixed((t + 2) as u8, (first + j) as u8, most));
                }
            }
        }
        for (j, nozzle) in nozzles.iter().enumerate() {
            if nozzle.is_in_service() {
                arcs.push(Arc::counted((first + j) as u8, 1));
            }
        }
        arcs
    }

    /// The network of the board.
    pub fn network(&self) -> Network
        ensures nodes { result.nodes ≡ node_count (orders_of self.now) (nozzles_of self.now) }
        ensures arcs { arcs_of result ≡ board_arcs (orders_of self.now) (nozzles_of self.now) }
    {
        let arcs = self.arcs();
        let nodes = self.orders.len() + self.nozzles.len() + 2;
        let mut net = Network::empty();
        net.fill(nodes as u8, arcs.as_slice()).unwrap();
        net
    }

    // What each nozzle takes in a subtour, numbered from 0, by one walk over the arcs from types to
    // nozzles.
    fn next_pieces(&self, flow: &[u32; 256], subtour: u32) -> [u8; 8]
        ensures long { length result ≡ 8 }
        ensures pieces { (j : ℕ) → j < 8 → slice_index result j ≡ piece_of (orders_of self.now) (nozzles_of self.now) flow.now subtour j }
    {
        let orders = self.orders.as_slice();
        let nozzles = self.nozzles.as_slice();
        let none = Pick {
            left: u64::from(subtour) + 1,
            piece: 0,
        };
        let mut picks = [none; 8];
        // the arcs from the source to the types come first
        let mut counts = flow[orders.len()..].iter();
        for (t, order) in orders.iter().enumerate() {
            for (j, nozzle) in nozzles.iter().enumerate() {
                if order.goes_to(nozzle, j as u8) {
                    picks[j].count(*counts.next().unwrap(), t as u8 + 1);
                }
            }
        }
        picks.map(|pick| pick.piece)
    }

    /// Writes what each nozzle takes in a subtour, numbered from 0, under a flow: one byte for each
    /// nozzle, as far as there are places. The other places stay as they were.
    pub fn row(&self, flow: &[u32; 256], subtour: u32, out: &mut [u8])
        ensures row { (j : ℕ) → j < length (nozzles_of self.now) → j < length out.new → slice_index out.new j ≡ slice_index (row_of (orders_of self.now) (nozzles_of self.now) flow.now subtour) j }
        ensures rest { (k : ℕ) → length (nozzles_of self.now) ≤ k → slice_index out.new k ≡ slice_index out.old k }
    {
        let row = self.next_pieces(flow, subtour);
        let count = out.len().min(self.nozzles.len());
        out[..count].copy_from_slice(&row[..count]);
    }
}
