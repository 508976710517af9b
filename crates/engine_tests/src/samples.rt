// Networks and amounts for the tests.
use network::{Amount, Arc, Network};
use std::test::Fail;

/// The network of these nodes and arcs.
pub(crate) fn network_of(nodes: u8, arcs: &[Arc]) -> Result<Network, Fail> {
    let mut net = Network::empty();
    net.fill(nodes, arcs)?;
    Ok(net)
}

pub(crate) fn amount(value: u32) -> Result<Amount, Fail> {
    Ok(Amount::try_from(value)?)
}
