use crate::tables::answer;
use arc_eager::system::ArcEager;
use arc_standard::system::ArcStandard;
use guidance::building::build;
use layers::label_set::LabelSet;
use layers::layer::Layer;
use layers::one_root::OneRoot;
use list_based::system::ListBased;
use std::array;
use std::process::Abort;
use std::test::Fail;
use transition::making::make_move;
use transition::system::System;
use treebank::moves::Move;
use treebank::rows::Row;
use treebank::words::WordCount;

/// All labels but one.
pub(crate) fn all_but(label: usize) -> LabelSet {
    LabelSet::new(array::from_fn(|i| i + 1 != label))
}

/// Three layers over a system: no label 2 at level 1, one arc from the root at level 2, no label 3 at level 3.
fn layered<S: System>(system: S) -> Layer<LabelSet, Layer<OneRoot, Layer<LabelSet, S>>> {
    Layer::new(
        all_but(3),
        Layer::new(OneRoot, Layer::new(all_but(2), system)),
    )
}

/// The number and the level of a refusal; none for a move that was made.
fn refusal<S: System>(system: &mut S, m: Move) -> Option<(u8, u8)> {
    let fault = make_move(system, m).err()?;
    Some((fault.refusal.number(), fault.level))
}

/// The layers over a system of two words, which has come to where Right-Arc draws from the root to word 1, and comes by
/// the further moves to where it draws from the root to word 2.
fn check_levels<S: System + Drop>(rt: &impl Abort, system: S, foreign: Move, further: &[Move]) {
    let mut system = layered(system);
    assert_eq!(rt; system.height(), 3);
    assert_eq!(rt; refusal(&mut system, foreign), Some((3, 0)));
    assert_eq!(rt; refusal(&mut system, Move::LeftArc(2)), Some((22, 0)));
    assert_eq!(rt; refusal(&mut system, Move::RightArc(2)), Some((31, 1)));
    assert_eq!(rt; refusal(&mut system, Move::RightArc(3)), Some((31, 3)));
    assert_eq!(rt; refusal(&mut system, Move::RightArc(200)), None);
    for m in further {
        assert_eq!(rt; refusal(&mut system, *m), None);
    }
    assert_eq!(rt; refusal(&mut system, Move::RightArc(2)), Some((31, 1)));
    assert_eq!(rt; refusal(&mut system, Move::RightArc(3)), Some((30, 2)));
    assert_eq!(rt; refusal(&mut system, Move::RightArc(1)), Some((30, 2)));
    assert_eq!(rt; system.arc_into(2), None);
}

#[test]
fn levels_standard(rt: HostRuntime) -> Result<(), Fail> {
    let words = WordCount::new(2)?;
    let mut system = ArcStandard::new(words);
    system.step(Move::Shift)?;
    check_levels(&rt, system, Move::Reduce, &[Move::Shift]);
    Ok(())
}

#[test]
fn levels_eager(rt: HostRuntime) -> Result<(), Fail> {
    let words = WordCount::new(2)?;
    check_levels(&rt, ArcEager::new(words), Move::NoArc, &[Move::Reduce]);
    Ok(())
}

#[test]
fn levels_lists(rt: HostRuntime) -> Result<(), Fail> {
    let words = WordCount::new(2)?;
    check_levels(
        &rt,
        ListBased::new(words),
        Move::Reduce,
        &[Move::Shift, Move::NoArc],
    );
    Ok(())
}

// Two words that hang on the root.
#[test]
fn heads_0_0_one_root(rt: HostRuntime) -> Result<(), Fail> {
    let words = WordCount::new(2)?;
    let heap = rt.alloc();
    let table = [Row { head: 0, label: 1 }, Row { head: 0, label: 2 }];
    let bare = answer(heap, build(heap, &mut ArcStandard::new(words), &table))?;
    assert_eq!(rt; bare.as_str(), "Shift, Right-Arc 1, Shift, Right-Arc 2");
    let under = answer(
        heap,
        build(
            heap,
            &mut Layer::new(OneRoot, ArcStandard::new(words)),
            &table,
        ),
    )?;
    assert_eq!(rt; under.as_str(), "refused 26");
    Ok(())
}

// A table with a label outside the set, and one within it.
#[test]
fn labels_in_set(rt: HostRuntime) -> Result<(), Fail> {
    let words = WordCount::new(1)?;
    let heap = rt.alloc();
    let mut system = Layer::new(all_but(2), ArcStandard::new(words));
    assert_eq!(rt;
        answer(heap, build(heap, &mut system, &[Row { head: 0, label: 2 }]))?.as_str(),
        "refused 26"
    );
    assert_eq!(rt;
        answer(heap, build(heap, &mut system, &[Row { head: 0, label: 1 }]))?.as_str(),
        "Shift, Right-Arc 1"
    );
    Ok(())
}
