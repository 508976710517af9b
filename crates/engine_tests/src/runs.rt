// Single runs of an engine.
use super::samples::{amount, network_of};
use engines::AnyEngine;
use network::{Answer, Arc, Engine};
use path_engine::PathEngine;
use push_engine::PushEngine;
use std::process::Abort;
use std::test::Fail;

/// One run on a network of five nodes: the size of the flow, and the side of a short run or 0.
fn run_once<E: Engine>(
    rt: &impl Abort,
    engine: &mut E,
    arcs: &[Arc],
    limit: u32,
    wanted: u32,
) -> Result<(u32, u64), Fail> {
    let net = network_of(5, arcs)?;
    let mut flow = [7; 256];
    let answer = engine.run(&net, amount(limit)?, amount(wanted)?, &mut flow);
    assert!(rt; flow[255] == 0, "places after the last arc");
    let size = arcs
        .iter()
        .zip(&flow)
        .filter(|(arc, _)| arc.tail == 0)
        .fold(0u32, |sum, (_, x)| sum.saturating_add(*x));
    match answer {
        Answer::Reached => Ok((size, 0)),
        Answer::Short { side } => Ok((size, side.bits)),
    }
}

fn edges<E: Engine>(rt: &impl Abort, engine: &mut E) -> Result<(), Fail> {
    assert_eq!(rt; run_once(rt, engine, &[], 3, 0)?, (0, 0), "nothing wanted");
    assert_eq!(rt; run_once(rt, engine, &[], 3, 1)?, (0, 1), "no arcs");
    let parallel = [Arc::fixed(0, 1, 2), Arc::fixed(0, 1, 3), Arc::counted(0, 1)];
    assert_eq!(rt;
        run_once(rt, engine, &parallel, 4, 9)?,
        (9, 0),
        "parallel arcs"
    );
    assert_eq!(rt;
        run_once(rt, engine, &parallel, 4, 2_000_000)?,
        (9, 1),
        "more than any flow"
    );
    assert_eq!(rt; run_once(rt, engine, &parallel, 0, 5)?, (5, 0), "limit 0");
    let empty = [Arc::fixed(0, 2, 0), Arc::fixed(2, 1, 5)];
    assert_eq!(rt; run_once(rt, engine, &empty, 1, 1)?, (0, 1), "capacity 0");
    Ok(())
}

fn cycles<E: Engine>(rt: &impl Abort, engine: &mut E) -> Result<(), Fail> {
    let ring = [
        Arc::fixed(0, 2, 8),
        Arc::fixed(2, 3, 8),
        Arc::fixed(3, 4, 8),
        Arc::fixed(4, 2, 8),
        Arc::counted(3, 1),
        Arc::counted(4, 1),
    ];
    assert_eq!(rt; run_once(rt, engine, &ring, 4, 8)?, (8, 0));
    assert_eq!(rt; run_once(rt, engine, &ring, 3, 8)?, (6, 0b11101));
    let back = [
        Arc::fixed(0, 2, 1),
        Arc::fixed(0, 3, 1),
        Arc::fixed(2, 3, 1),
        Arc::fixed(2, 4, 1),
        Arc::fixed(3, 1, 1),
        Arc::fixed(4, 1, 1),
    ];
    assert_eq!(rt;
        run_once(rt, engine, &back, 0, 2)?,
        (2, 0),
        "a path that goes back"
    );
    Ok(())
}

/// All the runs with one engine.
fn nine_runs<E: Engine>(rt: &impl Abort, engine: &mut E) -> Result<(), Fail> {
    edges(rt, engine)?;
    cycles(rt, engine)?;
    assert_eq!(rt; engine.count(), 9);
    Ok(())
}

#[test]
fn path_engine_runs(rt: HostRuntime) -> Result<(), Fail> {
    nine_runs(&rt, &mut PathEngine::new())
}

#[test]
fn push_engine_runs(rt: HostRuntime) -> Result<(), Fail> {
    nine_runs(&rt, &mut PushEngine::new())
}

#[test]
fn either_engine_runs(rt: HostRuntime) -> Result<(), Fail> {
    let mut engine = AnyEngine::Push(PushEngine::with_count(4_294_967_290));
    edges(&rt, &mut engine)?;
    assert_eq!(rt; engine.count(), 0);
    engine = AnyEngine::Path(PathEngine::with_count(4_294_967_295));
    assert_eq!(rt; run_once(&rt, &mut engine, &[], 0, 0)?, (0, 0));
    assert_eq!(rt; engine.count(), 0);
    Ok(())
}
