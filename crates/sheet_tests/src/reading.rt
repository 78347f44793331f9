// Reading: sheets that are read, and each refusal at its edges.
use crate::support::{LINKS, NUMBERS, damaged, refusal};
use sheet::{Sheet, SheetBytes};
use std::alloc::{AllocError, Global};
use std::test::Fail;
use value::{Link, Number};

#[test]
fn both_kinds_are_read(rt: HostRuntime) -> Result<(), Fail> {
    assert_eq!(rt; refusal::<Number>(rt.alloc(), &NUMBERS)?, None);
    assert_eq!(rt; refusal::<Link>(rt.alloc(), &LINKS)?, None);
    assert_eq!(rt; refusal::<Link>(rt.alloc(), &NUMBERS)?, Some((21, 1)));
    assert_eq!(rt; refusal::<Number>(rt.alloc(), &LINKS)?, Some((21, 1)));
    Ok(())
}

#[test]
fn short_and_long_sheets(rt: HostRuntime) -> Result<(), Fail> {
    assert_eq!(rt; refusal::<Number>(rt.alloc(), &[])?, Some((20, 0)));
    assert_eq!(rt;
        refusal::<Number>(rt.alloc(), &NUMBERS[0..23])?,
        Some((20, 23))
    );
    assert_eq!(rt;
        refusal::<Number>(rt.alloc(), &NUMBERS[0..24])?,
        Some((20, 24))
    );
    assert_eq!(rt;
        refusal::<Number>(rt.alloc(), &NUMBERS[0..81])?,
        Some((20, 81))
    );
    Ok(())
}

// Every field of the header, of an operation and of the script, one byte at a time.
#[test]
fn damaged_numbers(rt: HostRuntime) -> Result<(), Fail> {
    let damages = [
        (0, 0, 21, 0),
        (0, 2, 21, 0),
        (1, 3, 21, 1),
        (2, 0, 21, 2),
        (3, 1, 21, 2),
        (4, 0, 21, 4),
        (4, 33, 21, 4),
        (5, 1, 21, 4),
        (6, 9, 22, 16),
        (7, 1, 22, 16),
        (8, 25, 22, 8),
        (9, 1, 22, 8),
        (2, 1, 22, 12),
        (12, 41, 22, 12),
        (15, 1, 22, 12),
        (16, 71, 22, 16),
        (19, 1, 22, 16),
        (20, 83, 20, 82),
        (23, 1, 20, 82),
        (31, 128, 24, 24),
        (39, 128, 24, 32),
        (40, 0, 23, 40),
        (40, 6, 23, 40),
        (40, 4, 23, 40),
        (42, 0, 23, 40),
        (42, 1, 23, 62),
        (42, 3, 23, 40),
        (42, 17, 23, 40),
        (43, 1, 23, 40),
        (51, 128, 24, 44),
        (61, 128, 24, 54),
        (71, 128, 24, 64),
        (73, 32, 25, 73),
        (81, 254, 25, 81),
        (81, 255, 25, 82),
        (72, 0, 25, 82),
    ];
    for (at, byte, number, place) in damages {
        let bytes = damaged(NUMBERS, at, byte);
        assert_eq!(rt;
            refusal::<Number>(rt.alloc(), &bytes)?,
            Some((number, place))
        );
    }
    Ok(())
}

// Code 1 of links, their greatest code, unused codes, and a byte that is not tested.
#[test]
fn damaged_links(rt: HostRuntime) -> Result<(), Fail> {
    let damages = [
        (24, 1, 24, 24),
        (26, 2, 24, 24),
        (36, 1, 23, 32),
        (46, 1, 23, 32),
        (53, 1, 23, 32),
        (58, 1, 24, 58),
        (68, 1, 23, 54),
        (76, 0, 25, 79),
    ];
    for (at, byte, number, place) in damages {
        let bytes = damaged(LINKS, at, byte);
        assert_eq!(rt; refusal::<Link>(rt.alloc(), &bytes)?, Some((number, place)));
    }
    let mut untested = LINKS;
    untested[33] = 200;
    untested[44] = 255;
    assert_eq!(rt; refusal::<Link>(rt.alloc(), &untested)?, None);
    Ok(())
}

// What was read is what stands there.
#[test]
fn parts_are_read(rt: HostRuntime) -> Result<(), Fail> {
    let sheet = Sheet::<Number>::read(rt.alloc(), &NUMBERS)?;
    assert_eq!(rt; sheet.initial.len(), 2);
    assert_eq!(rt; sheet.processes, 1);
    assert_eq!(rt; sheet.operations.len(), 1);
    assert_eq!(rt; sheet.script.len(), 10);
    let five = sheet.initial.first().ok_or("no value")?;
    assert_eq!(rt; five.value, 5);
    Ok(())
}

// A header of version 1 for numbers, with these counts and offsets.
fn header(heap: Global, counts: [u16; 3], offsets: [u32; 4]) -> Result<Vec<u8>, AllocError> {
    let mut bytes = Vec::new(heap);
    bytes.extend_from_slice(&[1, 1])?;
    for count in counts {
        bytes.extend_from_slice(&count.to_le_bytes())?;
    }
    for offset in offsets {
        bytes.extend_from_slice(&offset.to_le_bytes())?;
    }
    Ok(bytes)
}

// A sheet of one location and one process with so many READs, each started: an operation of 22 bytes each from
// byte 32 on, then a byte of 255 each.
fn reads_of(heap: Global, count: u16) -> Result<Vec<u8>, AllocError> {
    let script = 32 + 22 * u32::from(count);
    let mut bytes = header(
        heap,
        [1, 1, count],
        [24, 32, script, script + u32::from(count)],
    )?;
    bytes.extend_from_slice(&[0; 8])?;
    for _ in 0..count {
        bytes.extend_from_slice(&[1, 0, 1, 0])?;
        bytes.extend_from_slice(&[0; 18])?;
    }
    for _ in 0..count {
        bytes.push(255)?;
    }
    Ok(bytes)
}

#[test]
fn operations_past_the_last(rt: HostRuntime) -> Result<(), Fail> {
    let heap = rt.alloc();
    assert_eq!(rt; refusal::<Number>(heap, &reads_of(heap, 4_096)?)?, None);
    assert_eq!(rt;
        refusal::<Number>(heap, &reads_of(heap, 4_097)?)?,
        Some((23, 90_144))
    );
    Ok(())
}

#[test]
fn past_the_total(rt: HostRuntime) -> Result<(), Fail> {
    let heap = rt.alloc();
    let mut bytes = Vec::new(heap);
    bytes.extend_from_slice(&NUMBERS)?;
    bytes.push(0)?;
    assert_eq!(rt; refusal::<Number>(heap, &bytes)?, Some((20, 83)));
    Ok(())
}

// A sheet of so many locations and processes, with no operation and no script: its end is every offset but the first.
fn at_rest(heap: Global, locations: u16, processes: u16) -> Result<Vec<u8>, AllocError> {
    let end = 24 + 8 * u32::from(locations);
    let mut bytes = header(heap, [locations, processes, 0], [24, end, end, end])?;
    for _ in 0..locations {
        bytes.extend_from_slice(&[0; 8])?;
    }
    Ok(bytes)
}

#[test]
fn most_locations_and_processes(rt: HostRuntime) -> Result<(), Fail> {
    let heap = rt.alloc();
    let edges = [
        (256, 32, None),
        (257, 32, Some((21, 2))),
        (256, 33, Some((21, 4))),
        (257, 33, Some((21, 2))),
    ];
    for (locations, processes, want) in edges {
        let bytes = at_rest(heap, locations, processes)?;
        assert_eq!(rt;
            refusal::<Number>(heap, &bytes)?,
            want,
            "{locations} locations, {processes} processes"
        );
    }
    Ok(())
}

// A first offset that is too low, and two bytes at a time: 43 script bytes would begin at 39, below the operations,
// and 42 at 40, where they end; 8 locations would end at 88, past the total, and 7 at 80, past the script's 72.
#[test]
fn offsets_out_of_order(rt: HostRuntime) -> Result<(), Fail> {
    let low = damaged(NUMBERS, 8, 23);
    assert_eq!(rt; refusal::<Number>(rt.alloc(), &low)?, Some((22, 8)));
    let damages = [
        ((6, 43), (16, 39), 22, 16),
        ((6, 42), (16, 40), 25, 82),
        ((2, 8), (12, 88), 22, 12),
        ((2, 7), (12, 80), 22, 16),
    ];
    for ((count_at, count), (offset_at, offset), number, place) in damages {
        let bytes = damaged(damaged(NUMBERS, count_at, count), offset_at, offset);
        assert_eq!(rt;
            refusal::<Number>(rt.alloc(), &bytes)?,
            Some((number, place)),
            "{count} at {count_at}"
        );
    }
    Ok(())
}

// These bytes with another code in the eight of them from `at` on; where one byte is meant, `damaged` says so plainly.
fn coded<const N: usize>(mut bytes: [u8; N], at: usize, code: u64) -> [u8; N] {
    for (place, byte) in bytes.iter_mut().skip(at).zip(code.to_le_bytes()) {
        *place = byte;
    }
    bytes
}

// 2^63 - 1 is the greatest code of a number, at each place where a code stands.
#[test]
fn greatest_numbers(rt: HostRuntime) -> Result<(), Fail> {
    for at in [24, 32, 44, 54, 64] {
        let read = coded(NUMBERS, at, 0x7fff_ffff_ffff_ffff);
        assert_eq!(rt; refusal::<Number>(rt.alloc(), &read)?, None, "at {at}");
        let refused = coded(NUMBERS, at, 0x8000_0000_0000_0000);
        assert_eq!(rt;
            refusal::<Number>(rt.alloc(), &refused)?,
            Some((24, at)),
            "at {at}"
        );
    }
    Ok(())
}

// 131,071 is the greatest code of a link: the initial value's, and the new one's of the SC. Each of the two tests has
// its figures where it stands.
#[test]
fn greatest_links(rt: HostRuntime) -> Result<(), Fail> {
    for at in [24, 58] {
        let read = coded(LINKS, at, 131_071);
        assert_eq!(rt; refusal::<Link>(rt.alloc(), &read)?, None, "at {at}");
        let refused = coded(LINKS, at, 131_072);
        assert_eq!(rt;
            refusal::<Link>(rt.alloc(), &refused)?,
            Some((24, at)),
            "at {at}"
        );
    }
    Ok(())
}

// A sheet of one location and one process, with one operation of this kind and of so many operands, started: it
// stands from byte 32 on, the script behind it. The kind is the byte that stands in the sheet.
fn operands_of(heap: Global, kind: u8, count: u8) -> Result<Vec<u8>, AllocError> {
    let script = 44 + 10 * u32::from(count);
    let mut bytes = header(heap, [1, 1, 1], [24, 32, script, script + 1])?;
    bytes.extend_from_slice(&[0; 8])?;
    bytes.extend_from_slice(&[kind, 0, count, 0])?;
    bytes.extend_from_slice(&[0; 8])?;
    for _ in 0..count {
        bytes.extend_from_slice(&[0; 10])?;
    }
    bytes.push(255)?;
    Ok(bytes)
}

// A SNAPSHOT and a KCSS may have 16 operands, a READ one.
#[test]
fn most_operands(rt: HostRuntime) -> Result<(), Fail> {
    let heap = rt.alloc();
    for (kind, most, more) in [(1, 1, 2), (4, 16, 17), (5, 16, 17)] {
        let read = operands_of(heap, kind, most)?;
        assert_eq!(rt; refusal::<Number>(heap, &read)?, None, "kind {kind}");
        let refused = operands_of(heap, kind, more)?;
        assert_eq!(rt;
            refusal::<Number>(heap, &refused)?,
            Some((23, 32)),
            "kind {kind}"
        );
    }
    Ok(())
}
