// Writing: each refusal at its edges, an output that is too short by one, and bytes past the sheet.
use crate::support::{LINKS, NUMBERS};
use sheet::{Action, Operation, ScriptItem, Sheet, SheetBytes};
use std::alloc::{AllocError, Global};
use std::test::Fail;
use value::{Link, Number, ValueKind};

// A sheet of one location with one operation and this script.
fn sheet_of(
    heap: Global,
    action: Action<Number>,
    processes: u16,
    item: ScriptItem,
) -> Result<Sheet<Number>, AllocError> {
    Ok(Sheet {
        initial: vec![in heap; Number { value: 5 }]?,
        processes,
        operations: vec![in heap; Operation { process: 0, action }]?,
        script: vec![in heap; ScriptItem::Start, item]?,
    })
}

// A SNAPSHOT of so many locations.
fn snapshot(heap: Global, count: u16) -> Result<Action<Number>, AllocError> {
    Ok(Action::Snapshot((0..count).collect(heap)?))
}

// The length that was written, or the number and the place of the refusal.
fn written(sheet: &Sheet<Number>, out: &mut [u8]) -> Result<usize, (u8, usize)> {
    sheet
        .write(out)
        .map_err(|fault| (fault.number(), fault.place))
}

#[test]
fn bytes_come_back(rt: HostRuntime) -> Result<(), Fail> {
    let mut out = [170; 100];
    let numbers = Sheet::<Number>::read(rt.alloc(), &NUMBERS)?;
    assert_eq!(rt; written(&numbers, &mut out), Ok(82));
    assert!(rt; out[0..82] == NUMBERS[0..82]);
    assert_eq!(rt; out[82], 170);
    let links = Sheet::<Link>::read(rt.alloc(), &LINKS)?;
    assert_eq!(rt; links.write(&mut out).ok(), Some(79));
    assert!(rt; out[0..79] == LINKS[0..79]);
    Ok(())
}

#[test]
fn short_output_is_untouched(rt: HostRuntime) -> Result<(), Fail> {
    let numbers = Sheet::<Number>::read(rt.alloc(), &NUMBERS)?;
    let mut out = [170; 81];
    assert_eq!(rt; written(&numbers, &mut out), Err((26, 82)));
    assert!(rt; out == [170; 81]);
    Ok(())
}

#[test]
fn counts_and_steps(rt: HostRuntime) -> Result<(), Fail> {
    let heap = rt.alloc();
    let mut out = [0; 300];
    let step = ScriptItem::Step(31);
    assert_eq!(rt;
        written(&sheet_of(heap, snapshot(heap, 16)?, 32, step)?, &mut out),
        Ok(206)
    );
    assert_eq!(rt;
        written(&sheet_of(heap, snapshot(heap, 17)?, 32, step)?, &mut out),
        Err((23, 32))
    );
    assert_eq!(rt;
        written(&sheet_of(heap, snapshot(heap, 0)?, 32, step)?, &mut out),
        Err((23, 32))
    );
    assert_eq!(rt;
        written(&sheet_of(heap, snapshot(heap, 257)?, 32, step)?, &mut out),
        Err((23, 32))
    );
    assert_eq!(rt;
        written(&sheet_of(heap, Action::Read(0), 0, step)?, &mut out),
        Err((21, 4))
    );
    assert_eq!(rt;
        written(&sheet_of(heap, Action::Ll(0), 33, step)?, &mut out),
        Err((21, 4))
    );
    assert_eq!(rt;
        written(
            &sheet_of(heap, Action::Read(0), 1, ScriptItem::Step(32))?,
            &mut out,
        ),
        Err((25, 55))
    );
    assert_eq!(rt;
        written(
            &sheet_of(heap, Action::Read(0), 1, ScriptItem::Step(255))?,
            &mut out,
        ),
        Err((25, 55))
    );
    assert_eq!(rt;
        written(
            &sheet_of(heap, Action::Read(0), 1, ScriptItem::Start)?,
            &mut out,
        ),
        Err((25, 56))
    );
    Ok(())
}

// No location and 257 of them; 65,535 script items and one more; 4,096 operations and one more.
#[test]
fn many_of_each(rt: HostRuntime) -> Result<(), Fail> {
    let heap = rt.alloc();
    let mut sheet = sheet_of(heap, Action::Read(0), 1, ScriptItem::Step(0))?;
    let mut out = vec![in heap; 0u8; 200_000]?;
    for _ in 0..65_533 {
        sheet.script.push(ScriptItem::Step(0))?;
    }
    assert_eq!(rt; written(&sheet, &mut out), Ok(65_589));
    sheet.script.push(ScriptItem::Step(0))?;
    assert_eq!(rt; written(&sheet, &mut out), Err((21, 6)));
    sheet.script.truncate(1);
    for _ in 0..4_095 {
        sheet.operations.push(Operation {
            process: 0,
            action: Action::Read(0),
        })?;
        sheet.script.push(ScriptItem::Start)?;
    }
    assert_eq!(rt; written(&sheet, &mut out), Ok(94_240));
    sheet.operations.push(Operation {
        process: 0,
        action: Action::Read(0),
    })?;
    sheet.script.push(ScriptItem::Start)?;
    assert_eq!(rt; written(&sheet, &mut out), Err((23, 90_144)));
    for _ in 0..255 {
        sheet.initial.push(Number { value: 0 })?;
    }
    sheet.operations.truncate(1);
    sheet.script.truncate(1);
    assert_eq!(rt; written(&sheet, &mut out), Ok(2_095));
    sheet.initial.push(Number { value: 0 })?;
    assert_eq!(rt; written(&sheet, &mut out), Err((21, 2)));
    sheet.initial.clear();
    assert_eq!(rt; written(&sheet, &mut out), Err((21, 2)));
    Ok(())
}
