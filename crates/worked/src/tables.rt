use guidance::errors::BuildError;
use std::alloc::Global;
use std::process::Abort;
use std::test::Fail;
use treebank::moves::Move;
use treebank::rows::Row;

const NONE: Row = Row {
    head: Row::NO_HEAD,
    label: 0,
};

fn to(head: u8, label: u8) -> Row {
    Row { head, label }
}

/// The moves that a system answered, or the number of its refusal.
pub(crate) fn answer(heap: Global, built: Result<Vec<Move>, BuildError>) -> Result<String, Fail> {
    let moves = match built {
        Ok(moves) => moves,
        Err(BuildError::Refused(why)) => return Ok(format!(in heap; "refused {}", why.number())?),
        Err(BuildError::NoMemory) => return Ok(String::from_str(heap, "no memory")?),
    };
    let mut text = String::new(heap);
    for (i, m) in moves.iter().enumerate() {
        if i > 0 {
            text.push_str(", ")?;
        }
        write!(text, "{m}")?;
    }
    Ok(text)
}

/// What arc-standard, arc-eager and the list-based system answer for a table.
fn check_answers(
    rt: &impl Abort,
    heap: Global,
    table: &[Row],
    standard: &str,
    eager: &str,
    lists: &str,
) -> Result<(), Fail> {
    assert_eq!(rt;
        answer(heap, arc_standard::building::build_tree(heap, table))?.as_str(),
        standard
    );
    assert_eq!(rt;
        answer(heap, arc_eager::building::build_forest(heap, table))?.as_str(),
        eager
    );
    assert_eq!(rt;
        answer(heap, list_based::building::build_forest(heap, table))?.as_str(),
        lists
    );
    Ok(())
}

#[test]
fn no_words(rt: HostRuntime) -> Result<(), Fail> {
    check_answers(&rt, rt.alloc(), &[], "", "", "")
}

// Bells ring loudly.
#[test]
fn heads_2_0_2(rt: HostRuntime) -> Result<(), Fail> {
    check_answers(
        &rt,
        rt.alloc(),
        &[to(2, 2), to(0, 1), to(2, 3)],
        "Shift, Shift, Left-Arc 2, Shift, Right-Arc 3, Right-Arc 1",
        "Shift, Left-Arc 2, Right-Arc 1, Right-Arc 3",
        "Shift, Left-Arc 2, Right-Arc 1, Shift, Right-Arc 3, Shift",
    )
}

// Two arcs cross.
#[test]
fn heads_3_4_0_3(rt: HostRuntime) -> Result<(), Fail> {
    let lists =
        "Shift, Shift, No-Arc, Left-Arc 1, Right-Arc 3, Shift, Right-Arc 4, Left-Arc 2, Shift";
    check_answers(
        &rt,
        rt.alloc(),
        &[to(3, 1), to(4, 2), to(0, 3), to(3, 4)],
        "refused 26",
        "refused 26",
        lists,
    )
}

// An arc covers a word without a head.
#[test]
fn heads_3_none_0(rt: HostRuntime) -> Result<(), Fail> {
    let lists = "Shift, Shift, No-Arc, Left-Arc 1, Right-Arc 2, Shift";
    check_answers(
        &rt,
        rt.alloc(),
        &[to(3, 1), NONE, to(0, 2)],
        "refused 26",
        "refused 26",
        lists,
    )
}

#[test]
fn heads_none_none(rt: HostRuntime) -> Result<(), Fail> {
    check_answers(
        &rt,
        rt.alloc(),
        &[NONE, NONE],
        "refused 26",
        "Shift, Shift",
        "Shift, Shift",
    )
}

// A word that is its own head.
#[test]
fn head_1(rt: HostRuntime) -> Result<(), Fail> {
    check_answers(
        &rt,
        rt.alloc(),
        &[to(1, 1)],
        "refused 26",
        "refused 26",
        "refused 26",
    )
}

#[test]
fn heads_0_0(rt: HostRuntime) -> Result<(), Fail> {
    let standard = "Shift, Right-Arc 1, Shift, Right-Arc 2";
    let eager = "Right-Arc 1, Reduce, Right-Arc 2";
    let lists = "Right-Arc 1, Shift, No-Arc, Right-Arc 2, Shift";
    check_answers(
        &rt,
        rt.alloc(),
        &[to(0, 1), to(0, 2)],
        standard,
        eager,
        lists,
    )
}

// A head that is no node of the sentence, and a label without a head.
#[test]
fn bad_rows(rt: HostRuntime) -> Result<(), Fail> {
    check_answers(
        &rt,
        rt.alloc(),
        &[to(2, 1)],
        "refused 5",
        "refused 5",
        "refused 5",
    )?;
    check_answers(
        &rt,
        rt.alloc(),
        &[to(Row::NO_HEAD, 1)],
        "refused 5",
        "refused 5",
        "refused 5",
    )
}

#[test]
fn words_101(rt: HostRuntime) -> Result<(), Fail> {
    check_answers(
        &rt,
        rt.alloc(),
        &[NONE; 101],
        "refused 1",
        "refused 1",
        "refused 1",
    )
}

// A chain of 100 words: each hangs on the word before it.
#[test]
fn words_100(rt: HostRuntime) -> Result<(), Fail> {
    let heap = rt.alloc();
    let mut table = [to(0, 1); 100];
    for (i, row) in table.iter_mut().enumerate() {
        row.head = i as u8;
    }
    assert_eq!(rt;
        arc_standard::building::build_tree(heap, &table)?.len(),
        200
    );
    assert_eq!(rt; arc_eager::building::build_forest(heap, &table)?.len(), 100);
    assert_eq!(rt;
        list_based::building::build_forest(heap, &table)?.len(),
        200
    );
    Ok(())
}
