use arc_eager::system::ArcEager;
use arc_standard::system::ArcStandard;
use list_based::system::ListBased;
use std::process::Abort;
use std::test::Fail;
use transition::making::make_move;
use transition::system::System;
use treebank::moves::Move;
use treebank::words::WordCount;

/// The number of the first refusal among the moves, with how many were made before it; none where all are accepted.
fn first_refusal<S: System>(system: &mut S, moves: &[Move]) -> Option<(u8, usize)> {
    for (made, m) in moves.iter().enumerate() {
        if let Err(fault) = make_move(system, *m) {
            return Some((fault.refusal.number(), made));
        }
    }
    None
}

// The top of the stack has a head after Right-Arc.
#[test]
fn eager_second_head(rt: HostRuntime) -> Result<(), Fail> {
    let mut system = ArcEager::new(WordCount::new(2)?);
    let moves = [Move::RightArc(1), Move::LeftArc(1)];
    assert_eq!(rt; first_refusal(&mut system, &moves), Some((23, 1)));
    Ok(())
}

// Word 1 stands above 3 and cannot hang on it.
#[test]
fn lists_circle(rt: HostRuntime) -> Result<(), Fail> {
    let mut system = ListBased::new(WordCount::new(3)?);
    let moves = [
        Move::Shift,
        Move::RightArc(1),
        Move::Shift,
        Move::RightArc(1),
        Move::LeftArc(1),
    ];
    assert_eq!(rt; first_refusal(&mut system, &moves), Some((25, 4)));
    Ok(())
}

/// Each of the moves is refused, with the number beside it.
fn check_refused<S: System>(rt: &impl Abort, system: &mut S, refusals: &[(Move, u8)]) {
    for (m, number) in refusals {
        assert_eq!(rt; first_refusal(system, &[*m]), Some((*number, 0)));
    }
}

// Each system refuses the moves of the others, a label that is none, and any move on a sentence of no words.
#[test]
fn refused_at_once(rt: HostRuntime) -> Result<(), Fail> {
    check_refused(
        &rt,
        &mut ArcStandard::new(WordCount::NONE),
        &[
            (Move::Reduce, 3),
            (Move::LeftArc(201), 2),
            (Move::Shift, 20),
        ],
    );
    check_refused(
        &rt,
        &mut ArcEager::new(WordCount::NONE),
        &[(Move::NoArc, 3), (Move::Shift, 20)],
    );
    check_refused(
        &rt,
        &mut ListBased::new(WordCount::NONE),
        &[(Move::Reduce, 3), (Move::Shift, 20)],
    );
    Ok(())
}
