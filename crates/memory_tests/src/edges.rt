// Open and packed memory at their limits.
// Uses the value kinds, the memories and what the tests share.
use crate::support::{cas, fits, holds, last_link, linked, number, numbered, store};
use memory::Memory;
use open_memory::OpenMemory;
use packed_memory::{PackedMemory, pack};
use std::marker::PhantomData;

const GREATEST_TAG: u64 = 0xffff_ffff_ffff;

#[test]
fn open_refuses_past_its_limits(rt: HostRuntime) {
    let mut table = [number(5), number(6), number(7)];
    let mut open = OpenMemory { cells: &mut table };
    assert!(rt; open.len() == 3 && open.limits().code == 0x7fff_ffff_ffff_ffff);
    assert_eq!(rt; holds(&open, 2, &number(7)), Ok(true));
    assert_eq!(rt; holds(&open, 3, &number(7)), Err((1, 1, 3)));
    assert_eq!(rt;
        store(&mut open, 2, &numbered(32_767, GREATEST_TAG)),
        Ok(())
    );
    assert_eq!(rt; store(&mut open, 2, &numbered(32_768, 0)), Err((1, 2, 2)));
    assert_eq!(rt;
        store(&mut open, 2, &numbered(0, GREATEST_TAG + 1)),
        Err((1, 2, 2))
    );
    assert_eq!(rt; store(&mut open, 3, &numbered(32_768, 0)), Err((1, 1, 3)));
    assert_eq!(rt; fits(&open, &numbered(32_767, GREATEST_TAG)), Ok(()));
    assert_eq!(rt; fits(&open, &numbered(32_768, 0)), Err((1, 2, 0)));
}

#[test]
fn open_swaps_only_the_same_cell(rt: HostRuntime) {
    let mut table = [number(5), number(6)];
    let mut open = OpenMemory { cells: &mut table };
    assert_eq!(rt; cas(&mut open, 2, &number(5), &number(8)), Err((1, 1, 2)));
    assert_eq!(rt;
        cas(&mut open, 1, &number(5), &numbered(32_768, 0)),
        Err((1, 2, 1))
    );
    assert_eq!(rt; cas(&mut open, 1, &number(5), &number(8)), Ok(false));
    assert_eq!(rt;
        cas(&mut open, 1, &numbered(40_000, 0), &number(8)),
        Ok(false)
    );
    assert_eq!(rt; cas(&mut open, 1, &number(6), &number(8)), Ok(true));
    assert_eq!(rt; holds(&open, 1, &number(8)), Ok(true));
    assert_eq!(rt; holds(&open, 0, &number(5)), Ok(true));
}

#[test]
fn packed_keeps_links_as_words(rt: HostRuntime) {
    let mut words = [7; 3];
    let mut packed = PackedMemory {
        words: &mut words,
        kind: PhantomData,
    };
    assert_eq!(rt; holds(&packed, 0, &linked(3, 0)), Ok(true));
    assert_eq!(rt; store(&mut packed, 0, &last_link()), Ok(()));
    assert_eq!(rt;
        store(&mut packed, 2, &linked(32_767, GREATEST_TAG)),
        Ok(())
    );
    assert_eq!(rt; store(&mut packed, 2, &linked(32_768, 0)), Err((1, 2, 2)));
    assert_eq!(rt;
        store(&mut packed, 2, &linked(0, GREATEST_TAG + 1)),
        Err((1, 2, 2))
    );
    assert_eq!(rt; store(&mut packed, 3, &last_link()), Err((1, 1, 3)));
    assert_eq!(rt; holds(&packed, 0, &last_link()), Ok(true));
    assert_eq!(rt; words, [262_142, 7, 0xffff_ffff_ffff_ffff]);
}

// Words 2 and 262,144 are even, and no link has the code 1 or 131,072.
#[test]
fn packed_compares_cells(rt: HostRuntime) {
    let mut words = [2, 262_144, 1];
    let mut packed = PackedMemory {
        words: &mut words,
        kind: PhantomData,
    };
    assert_eq!(rt; holds(&packed, 0, &linked(0, 0)), Ok(true));
    assert_eq!(rt; holds(&packed, 1, &linked(0, 0)), Ok(true));
    assert_eq!(rt; cas(&mut packed, 0, &linked(0, 0), &linked(5, 3)), Ok(true));
    assert_eq!(rt; cas(&mut packed, 1, &last_link(), &linked(5, 3)), Ok(false));
    assert_eq!(rt;
        cas(&mut packed, 2, &linked(0, GREATEST_TAG + 1), &last_link()),
        Ok(false)
    );
    assert_eq!(rt;
        cas(&mut packed, 2, &last_link(), &linked(0, GREATEST_TAG + 1)),
        Err((1, 2, 2))
    );
    assert_eq!(rt; words, [196_619, 262_144, 1]);
}

#[test]
fn pack_refuses_what_does_not_fit(rt: HostRuntime) {
    assert_eq!(rt; pack(&number(21)), Some(42));
    assert_eq!(rt; pack(&numbered(32_767, 1)), Some(131_071));
    assert_eq!(rt; pack(&numbered(32_768, 1)), None);
}
