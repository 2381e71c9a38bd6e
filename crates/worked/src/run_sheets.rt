use crate::under_layers::all_but;
use arc_standard::system::ArcStandard;
use layers::layer::Layer;
use sheets::replaying::replay;
use sheets::sealed::calls::seal;
use sheets_theory::faults::SheetFault;
use std::process::Abort;
use std::test::Fail;
use transition::system::System;
use treebank::rows::Row;
use treebank::words::WordCount;
use workbench::workbench::Workbench;

/// "Bells ring loudly" in arc-standard.
const BELLS: &[u8; 35] = b"0103\n0000\n0000\n0102\n0000\n0203\n0201\n";

/// The line, the number and the level of the refusal of a sheet on a sentence of three words, which is then as it was;
/// none for a sheet that is accepted.
fn refusal<S: System + Drop>(
    rt: &impl Abort,
    system: S,
    sheet: &[u8],
) -> Result<Option<(usize, u8, u8)>, Fail> {
    let mut workbench = Workbench::new(system);
    workbench.load(3, 1)?;
    let Err(SheetFault { line, fault }) = replay(&mut workbench, sheet) else {
        return Ok(None);
    };
    assert_eq!(rt; workbench.move_count(), 0);
    Ok(Some((line, fault.refusal.number(), fault.level)))
}

// What is read and written again has the same bytes and rows; bytes behind stay.
#[test]
fn bells_written_again(rt: HostRuntime) -> Result<(), Fail> {
    let mut workbench = Workbench::new(ArcStandard::new(WordCount::NONE));
    workbench.load(3, 1)?;
    assert_eq!(rt; replay(&mut workbench, BELLS)?, 6);
    let sealed = seal(workbench);
    assert!(rt; sealed.finished());
    let mut sheet = [7; 36];
    assert_eq!(rt; sealed.write_sheet(&mut sheet)?, 35);
    assert!(rt; &sheet[..35] == BELLS.as_slice());
    assert_eq!(rt; sheet[35], 7);
    let mut rows = [Row { head: 9, label: 9 }; 4];
    assert_eq!(rt; sealed.write_rows(&mut rows)?, 3);
    let written = [
        Row { head: 2, label: 2 },
        Row { head: 0, label: 1 },
        Row { head: 2, label: 3 },
        Row { head: 9, label: 9 },
    ];
    assert_eq!(rt; rows, written);
    assert!(rt; sealed.write_sheet(&mut sheet[..34]).is_err());
    Ok(())
}

// The line that is refused, with its number and level.
#[test]
fn refused_lines(rt: HostRuntime) -> Result<(), Fail> {
    let cases = [
        ("", Some((1, 6, 0))),
        ("0203\n", Some((1, 7, 0))),
        ("0102\n", Some((1, 7, 0))),
        ("0103\n0000\n01g2\n", Some((3, 6, 0))),
        ("0103\n0000\n0502\n", Some((3, 3, 0))),
        ("0103\n0000\n0302\n", Some((3, 2, 0))),
        ("0103\n0000\n0300\n", Some((3, 3, 0))),
        ("0103\n0000\n0101\n", Some((3, 22, 0))),
        ("0103\n0000\n0000", Some((3, 6, 0))),
        ("0103\n0000\n", None),
    ];
    for (sheet, refused) in cases {
        assert_eq!(rt;
            refusal(&rt, ArcStandard::new(WordCount::NONE), sheet.as_bytes())?,
            refused
        );
    }
    let layered = Layer::new(all_but(3), ArcStandard::new(WordCount::NONE));
    assert_eq!(rt; refusal(&rt, layered, BELLS)?, Some((6, 31, 1)));
    Ok(())
}
