// Networks that keep the rules, and networks that break one.
use network::{Amount, Arc, Network, NetworkFault, Refusal, Side};
use std::process::Abort;
use std::test::Fail;

/// A network takes the first arc and refuses the second, which breaks a rule, and stays as it was.
fn is_refused(rt: &impl Abort, nodes: u8, arc: Arc, what: &str) {
    let mut net = Network::empty();
    assert_eq!(rt; net.fill(3, &[Arc::counted(2, 1)]), Ok(()));
    assert_eq!(rt;
        net.fill(nodes, &[Arc::fixed(0, 1, 1), arc]),
        Err(NetworkFault::BadArc { arc: 1 }),
        "{what}"
    );
    assert!(rt;
        net.nodes() == 3 && net.arcs().len() == 1 && net.counted() == 1,
        "{what}"
    );
}

#[test]
fn arcs_keep_the_rules(rt: HostRuntime) {
    is_refused(&rt, 4, Arc::fixed(2, 2, 1), "from a node to itself");
    is_refused(&rt, 4, Arc::fixed(2, 0, 1), "into the source");
    is_refused(&rt, 4, Arc::counted(1, 2), "out of the sink");
    is_refused(&rt, 4, Arc::fixed(4, 1, 1), "from no node");
    is_refused(&rt, 4, Arc::fixed(0, 4, 1), "to no node");
    is_refused(&rt, 4, Arc::fixed(0, 2, 2_000_001), "too large a capacity");
    let mut net = Network::empty();
    assert_eq!(rt;
        net.fill(
            4,
            &[
                Arc::fixed(0, 3, 2_000_000),
                Arc::fixed(3, 2, 0),
                Arc::fixed(2, 3, 1)
            ]
        ),
        Ok(())
    );
}

#[test]
fn counts_are_checked_first(rt: HostRuntime) {
    let mut net = Network::empty();
    assert_eq!(rt;
        net.fill(1, &[Arc::fixed(2, 2, 1)]),
        Err(NetworkFault::BadCount)
    );
    assert_eq!(rt; net.fill(65, &[]), Err(NetworkFault::BadCount));
    assert_eq!(rt; net.fill(64, &[Arc::counted(0, 1); 256]), Ok(()));
    assert_eq!(rt;
        net.fill(2, &[Arc::counted(0, 1); 257]),
        Err(NetworkFault::BadCount)
    );
    assert!(rt; net.nodes() == 64 && net.arcs().len() == 256 && net.counted() == 256);
    assert_eq!(rt; net.fill(2, &[]), Ok(()));
    assert!(rt; net.nodes() == 2 && net.arcs().len() == 0);
}

#[test]
fn amounts_are_small(rt: HostRuntime) -> Result<(), Fail> {
    match Amount::try_from(2_000_000) {
        Ok(amount) => assert_eq!(rt; amount.value(), 2_000_000),
        Err(_) => return Err(Fail::new("refused")),
    }
    match Amount::try_from(2_000_001) {
        Ok(_) => Err(Fail::new("taken")),
        Err(fault) => {
            assert_eq!(rt; (fault.number(), fault.layer(), fault.place()), (3, 2, 0));
            Ok(())
        },
    }
}

#[test]
fn faults_have_numbers(rt: HostRuntime) {
    let fault = NetworkFault::ShortTrail { needed: 5 };
    assert_eq!(rt; (fault.number(), fault.layer(), fault.place()), (9, 2, 5));
    let fault = NetworkFault::BadCount;
    assert_eq!(rt;
        (fault.number(), fault.layer(), fault.place()),
        (10, 2, 256)
    );
    let fault = NetworkFault::BadArc { arc: 7 };
    assert_eq!(rt; (fault.number(), fault.layer(), fault.place()), (10, 2, 7));
}

#[test]
fn cuts_have_figures(rt: HostRuntime) {
    let mut net = Network::empty();
    let arcs = [
        Arc::fixed(0, 2, 5),
        Arc::fixed(0, 3, 2),
        Arc::fixed(2, 4, 7),
        Arc::fixed(3, 2, 9),
        Arc::counted(2, 1),
        Arc::counted(4, 1),
    ];
    assert_eq!(rt; net.fill(5, &arcs), Ok(()));
    let all_but_sink = net.cut(Side { bits: 0b11101 });
    assert_eq!(rt; (all_but_sink.fixed, all_but_sink.counted), (0, 2));
    let source = net.cut(Side { bits: 1 });
    assert_eq!(rt; (source.fixed, source.counted), (7, 0));
    let mixed = net.cut(Side { bits: 0b101 });
    assert_eq!(rt; (mixed.fixed, mixed.counted), (9, 1));
}

#[test]
fn sides_hold_nodes(rt: HostRuntime) {
    let side = Side {
        bits: (1 << 63) | 5,
    };
    assert!(rt; side.holds(0) && !side.holds(1) && side.holds(2) && side.holds(63));
    assert!(rt; !side.holds(62) && !side.holds(64) && !side.holds(255));
}
