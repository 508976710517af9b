// Boards of books, and books that are none.
use limit_search::{Found, Step, search};
use path_engine::PathEngine;
use sheets::{Board, BoardFault, NozzleState, TypeRecord};
use std::process::Abort;
use std::test::Fail;

const TWO: [NozzleState; 2] = [NozzleState::InService, NozzleState::InService];

fn entered(quantity: u16, mask: u8) -> TypeRecord {
    TypeRecord {
        quantity: Some(quantity),
        mask: Some(mask),
        limit: None,
    }
}

const GAP: TypeRecord = TypeRecord {
    quantity: None,
    mask: Some(1),
    limit: None,
};

fn is_refused(rt: &impl Abort, types: &[TypeRecord], nozzles: &[NozzleState], fault: BoardFault) {
    assert_eq!(rt; Board::of(types, nozzles).err(), Some(fault));
}

#[test]
fn gaps_and_sizes(rt: HostRuntime) {
    is_refused(&rt, &[], &TWO, BoardFault::BadSize);
    is_refused(&rt, &[GAP; 25], &TWO, BoardFault::BadSize);
    is_refused(&rt, &[GAP], &[], BoardFault::BadSize);
    is_refused(&rt, &[GAP], &[NozzleState::Out; 9], BoardFault::BadSize);
    is_refused(&rt, &[GAP], &TWO, BoardFault::NotEntered { kind: 1 });
    let zero = entered(0, 1);
    let types = [zero, GAP, GAP];
    is_refused(&rt, &types, &TWO, BoardFault::NotEntered { kind: 2 });
    assert!(rt; Board::of(&[zero], &TWO).is_ok(), "0 is entered");
}

/// How the search ends on a board, and the row of its first and last subtour.
fn planned(
    types: &[TypeRecord],
    nozzles: &[NozzleState],
) -> Result<(Found, [u8; 3], [u8; 3]), Fail> {
    let board = Board::of(types, nozzles)?;
    let mut flow = [0; 256];
    let mut trail = [Step::default(); 9];
    let net = board.network();
    let found = search(
        &net,
        board.total(),
        &mut PathEngine::new(),
        &mut flow,
        &mut trail,
    )?;
    let mut first = [9; 3];
    let mut last = [9; 3];
    board.row(&flow, 0, &mut first);
    if let Found::Planned { cost, .. } = found {
        board.row(&flow, cost.saturating_sub(1), &mut last);
    }
    Ok((found, first, last))
}

#[test]
fn two_types(rt: HostRuntime) -> Result<(), Fail> {
    let (found, _, _) = planned(&[entered(5, 3), entered(2, 2)], &TWO)?;
    assert_eq!(rt; found, Found::Planned { cost: 4, runs: 2 });
    Ok(())
}

#[test]
fn one_nozzle_each(rt: HostRuntime) -> Result<(), Fail> {
    let types = [entered(6, 1), entered(1, 2)];
    let (found, first, last) = planned(&types, &TWO)?;
    assert_eq!(rt; found, Found::Planned { cost: 6, runs: 3 });
    assert!(rt;
        first == [1, 2, 9] && last == [1, 0, 9],
        "the place after the nozzles stays"
    );
    let second_out = [NozzleState::InService, NozzleState::Out];
    let (found, _, _) = planned(&types, &second_out)?;
    match found {
        Found::Planned { .. } => Err(Fail::new("planned")),
        Found::Short { cut, .. } => {
            assert_eq!(rt; cut.counted, 0);
            Ok(())
        },
    }
}

#[test]
fn limits_hold(rt: HostRuntime) -> Result<(), Fail> {
    let short = TypeRecord {
        quantity: Some(5),
        mask: Some(1),
        limit: Some(3),
    };
    let (found, _, _) = planned(&[short], &[NozzleState::InService])?;
    match found {
        Found::Planned { .. } => Err(Fail::new("planned")),
        Found::Short { cut, runs, .. } => {
            assert_eq!(rt; (runs, cut.side.bits), (2, 5));
            Ok(())
        },
    }
}
