// Whether a run and a search agree with the listing.
use crate::listed::{Listing, bit};
use limit_search::{Found, Step, search};
use network::{Amount, Answer, Arc, Engine, Network};

/// A small network, its arcs and how many nodes it has.
#[derive(Clone, Copy)]
pub(crate) struct Case<'a> {
    pub(crate) net: &'a Network,
    pub(crate) nodes: u8,
    pub(crate) arcs: &'a [Arc],
}

impl<'a> Case<'a> {
    /// What is listed under a limit.
    pub(crate) fn under(&self, limit: u32) -> Listing<'a> {
        Listing {
            nodes: self.nodes,
            arcs: self.arcs,
            limit,
        }
    }

    /// Whether one run answers as the listing says, where `sizes` are those of all flows under the
    /// limit.
    pub(crate) fn run_agrees<E: Engine>(
        &self,
        engine: &mut E,
        limit: u32,
        wanted: u32,
        sizes: u64,
    ) -> bool {
        let (Ok(under), Ok(size)) = (Amount::try_from(limit), Amount::try_from(wanted)) else {
            return false;
        };
        let before = engine.count();
        let mut flow = [9; 256];
        let answer = engine.run(self.net, under, size, &mut flow);
        let listing = self.under(limit);
        let Some(found) = listing.size_of(&flow) else {
            return false;
        };
        let is_counted = engine.count() == before.wrapping_add(1) && flow[255] == 0;
        let is_possible = sizes & bit(i64::from(wanted)) != 0;
        is_counted
            && match answer {
                Answer::Reached => is_possible && found == i64::from(wanted),
                Answer::Short { side } => {
                    !is_possible
                        && found < i64::from(wanted)
                        && listing.side_capacity(side.bits) == Some(found)
                }
            }
    }

    /// Whether a search answers as the listing says, where `least` is the least limit that admits
    /// the wanted size, if one does.
    pub(crate) fn search_agrees<E: Engine>(
        &self,
        engine: &mut E,
        wanted: u32,
        least: Option<usize>,
    ) -> bool {
        let Ok(size) = Amount::try_from(wanted) else {
            return false;
        };
        let mut flow = [0; 256];
        let mut trail = [Step::default(); 10];
        match search(self.net, size, engine, &mut flow, &mut trail) {
            Ok(Found::Planned { cost, .. }) => {
                least == Some(cost as usize)
                    && self.under(cost).size_of(&flow) == Some(i64::from(wanted))
            }
            Ok(Found::Short { .. }) => least.is_none(),
            Err(_) => false,
        }
    }
}
