// Searches for the least limit.
use super::samples::{amount, network_of};
use limit_search::{Found, Step, search};
use network::{Arc, Cut, Engine, NetworkFault, Refusal, Side};
use path_engine::PathEngine;
use push_engine::PushEngine;
use std::process::Abort;
use std::test::Fail;

const UNUSED: Step = Step {
    limit: 7,
    size: 7,
    side: Side { bits: 7 },
};

/// A search on a network of five nodes: how it ended, and the limits of its trail.
fn search_once<E: Engine>(
    engine: &mut E,
    arcs: &[Arc],
    wanted: u32,
) -> Result<(Found, [u32; 5]), Fail> {
    let net = network_of(5, arcs)?;
    let mut flow = [0; 256];
    let mut trail = [UNUSED; 5];
    let found = search(&net, amount(wanted)?, engine, &mut flow, &mut trail)?;
    Ok((found, trail.map(|step| step.limit)))
}

/// Three nozzles that are fed 20, 12 and 1.
fn three_nozzles() -> [Arc; 6] {
    [
        Arc::fixed(0, 2, 20),
        Arc::fixed(0, 3, 12),
        Arc::fixed(0, 4, 1),
        Arc::counted(2, 1),
        Arc::counted(3, 1),
        Arc::counted(4, 1),
    ]
}

fn four_runs<E: Engine>(rt: &impl Abort, engine: &mut E) -> Result<(), Fail> {
    let (found, limits) = search_once(engine, &three_nozzles(), 33)?;
    assert_eq!(rt; found, Found::Planned { cost: 20, runs: 4 });
    assert!(rt;
        limits == [0, 11, 16, 20, 7],
        "the place after the last step is untouched"
    );
    Ok(())
}

fn no_limit_will_do<E: Engine>(rt: &impl Abort, engine: &mut E) -> Result<(), Fail> {
    let (found, limits) = search_once(engine, &three_nozzles(), 34)?;
    let cut = Cut {
        side: Side { bits: 1 },
        fixed: 33,
        counted: 0,
    };
    assert_eq!(rt;
        found,
        Found::Short {
            limit: 21,
            cut,
            runs: 3,
        }
    );
    assert!(rt; limits == [0, 12, 21, 7, 7]);
    Ok(())
}

/// Both searches with one engine.
fn two_searches<E: Engine>(rt: &impl Abort, engine: &mut E) -> Result<(), Fail> {
    four_runs(rt, engine)?;
    assert_eq!(rt; engine.count(), 4);
    no_limit_will_do(rt, engine)?;
    assert_eq!(rt; engine.count(), 7);
    Ok(())
}

#[test]
fn path_engine_searches(rt: HostRuntime) -> Result<(), Fail> {
    two_searches(&rt, &mut PathEngine::new())
}

#[test]
fn push_engine_searches(rt: HostRuntime) -> Result<(), Fail> {
    two_searches(&rt, &mut PushEngine::new())
}

#[test]
fn short_trails_are_refused(rt: HostRuntime) -> Result<(), Fail> {
    let mut engine = PathEngine::new();
    let net = network_of(5, &three_nozzles())?;
    let mut flow = [9; 256];
    let mut trail = [UNUSED; 3];
    let fault = search(&net, amount(33)?, &mut engine, &mut flow, &mut trail).expect_err(
        &rt, "searched",
    );
    assert_eq!(rt; (fault.number(), fault.layer(), fault.place()), (9, 2, 4));
    assert_eq!(rt; engine.count(), 0);
    assert!(rt; flow[0] == 9 && flow[255] == 9);
    let [first, _, last] = trail;
    assert!(rt; first.limit == 7 && last.size == 7);
    Ok(())
}
