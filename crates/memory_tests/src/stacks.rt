// Memories that stand on others, and tables that are too long.
// Uses the value kinds, the memories and what the tests share.
use crate::support::{cas, fits, holds, last_link, linked, number, numbered, store};
use lent_memory::Lent;
use memory::{Limits, Memory};
use memory_laws::{cas_and_load, store_and_load};
use narrow_memory::Narrow;
use open_memory::OpenMemory;
use packed_memory::PackedMemory;
use spliced_memory::Spliced;
use std::marker::PhantomData;
use std::test::Fail;

// A narrow open memory of two cells, then a packed one of two that is lent.
#[test]
fn spliced_over_narrow(rt: HostRuntime) {
    let mut table = [number(1), number(2)];
    let mut words = [6, 8];
    let mut packed = PackedMemory {
        words: &mut words,
        kind: PhantomData,
    };
    let own = Limits {
        process: 9,
        tag: 100,
        code: 50,
    };
    let front = Narrow {
        below: OpenMemory { cells: &mut table },
        own,
    };
    let mut all = Spliced {
        front,
        back: Lent {
            memory: &mut packed,
        },
    };
    assert!(rt; all.len() == 4);
    assert_eq!(rt; holds(&all, 1, &number(2)), Ok(true));
    assert_eq!(rt; holds(&all, 2, &number(3)), Ok(true));
    assert_eq!(rt; holds(&all, 4, &number(3)), Err((1, 1, 4)));
    assert_eq!(rt; store(&mut all, 3, &number(50)), Ok(()));
    assert_eq!(rt; store(&mut all, 3, &number(51)), Err((1, 2, 3)));
    assert_eq!(rt; store(&mut all, 2, &numbered(10, 0)), Err((1, 2, 2)));
    assert_eq!(rt; cas(&mut all, 3, &number(50), &numbered(9, 100)), Ok(true));
    assert_eq!(rt; cas(&mut all, 1, &number(1), &number(4)), Ok(false));
    assert_eq!(rt; words, [6, 100 * 65_536 + 19]);
}

// Limits of its own over two packed memories of links.
#[test]
fn narrow_over_spliced(rt: HostRuntime) {
    let mut first = [0, 2];
    let mut second = [4];
    let mut lower = PackedMemory {
        words: &mut second,
        kind: PhantomData,
    };
    let front = PackedMemory {
        words: &mut first,
        kind: PhantomData,
    };
    let below = Spliced {
        front,
        back: Lent { memory: &mut lower },
    };
    let own = Limits {
        process: 9,
        tag: 0xffff_ffff_ffff_ffff,
        code: 131_070,
    };
    let mut narrow = Narrow { below, own };
    assert_eq!(rt; fits(&narrow, &last_link()), Err((1, 2, 0)));
    assert_eq!(rt; fits(&narrow, &linked(9, 0xffff_ffff_ffff)), Ok(()));
    assert_eq!(rt;
        fits(&narrow, &linked(9, 0x1_0000_0000_0000)),
        Err((1, 2, 0))
    );
    assert_eq!(rt; store(&mut narrow, 2, &last_link()), Err((1, 2, 2)));
    assert_eq!(rt; store(&mut narrow, 3, &last_link()), Err((1, 1, 3)));
    assert!(rt; matches!(store_and_load(&mut narrow, 2, &linked(9, 1)), Ok(_)));
    assert!(rt;
        matches!(
            cas_and_load(&mut narrow, 1, &linked(0, 0), &linked(9, 1)),
            Ok((true, _))
        )
    );
    assert_eq!(rt; first, [0, 65_555]);
}

// Cell 65,534 is the last.
#[test]
fn long_tables_are_cut(rt: HostRuntime) -> Result<(), Fail> {
    let mut words = vec![in rt.alloc(); 0; 65_536]?;
    let mut packed = PackedMemory {
        words: &mut words,
        kind: PhantomData,
    };
    assert_eq!(rt; store(&mut packed, 65_534, &number(1)), Ok(()));
    assert_eq!(rt; store(&mut packed, 65_535, &number(1)), Err((1, 1, 65_535)));
    let mut both = Spliced {
        front: OpenMemory {
            cells: &mut [number(0)],
        },
        back: packed,
    };
    assert!(rt; both.len() == 65_535);
    assert_eq!(rt; holds(&both, 65_534, &number(0)), Ok(true));
    assert_eq!(rt;
        cas(&mut both, 65_535, &number(1), &number(2)),
        Err((1, 1, 65_535))
    );
    Ok(())
}
