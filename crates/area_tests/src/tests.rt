// The cells in use, the tokens that may follow, and whether the tokens are complete, on three sample grammars.
use super::told_after;
use area::{OpeningFault, open_area};
use cells::{Cell, Row, ZERO};
use grammar::Symbol;
use sources::{ConstituentRow, FunctionRow, PlaceRow, Table};
use std::test::Fail;

// K, as many 0s as 1s as 2s, in this order: S -> c[N], N -> s[N], N -> z[], with c := (<1;1> <1;2> <1;3>), s := (0 <1;1>) (1 <1;2>) (2 <1;3>).
fn counts() -> Table<'static> {
    Table {
        tokens: 3,
        start: 0,
        dimensions: &[1, 3],
        functions: &[
            FunctionRow {
                arity: 1,
                first: 0,
                count: 1,
            },
            FunctionRow {
                arity: 1,
                first: 1,
                count: 3,
            },
            FunctionRow {
                arity: 0,
                first: 4,
                count: 3,
            },
        ],
        constituents: &[
            ConstituentRow { first: 0, count: 3 },
            ConstituentRow { first: 3, count: 2 },
            ConstituentRow { first: 5, count: 2 },
            ConstituentRow { first: 7, count: 2 },
            ConstituentRow { first: 9, count: 0 },
            ConstituentRow { first: 9, count: 0 },
            ConstituentRow { first: 9, count: 0 },
        ],
        symbols: &[
            Symbol::Argument(1, 1),
            Symbol::Argument(1, 2),
            Symbol::Argument(1, 3),
            Symbol::Token(0),
            Symbol::Argument(1, 1),
            Symbol::Token(1),
            Symbol::Argument(1, 2),
            Symbol::Token(2),
            Symbol::Argument(1, 3),
        ],
        places: &[
            Some(PlaceRow {
                result: 0,
                function: 0,
                first: 0,
                count: 1,
            }),
            Some(PlaceRow {
                result: 1,
                function: 1,
                first: 1,
                count: 1,
            }),
            Some(PlaceRow {
                result: 1,
                function: 2,
                first: 2,
                count: 0,
            }),
        ],
        arguments: &[1, 1],
    }
}

// D, 0, a list of 2s and 3s, 1, and the list again: S -> d[B], B -> u[], B -> v[], B -> j[B, B], with d := (0 <1;1> 1 <1;1>), j := (<1;1> <2;1>).
fn copies() -> Table<'static> {
    Table {
        tokens: 4,
        start: 0,
        dimensions: &[1, 1],
        functions: &[
            FunctionRow {
                arity: 1,
                first: 0,
                count: 1,
            },
            FunctionRow {
                arity: 0,
                first: 1,
                count: 1,
            },
            FunctionRow {
                arity: 0,
                first: 2,
                count: 1,
            },
            FunctionRow {
                arity: 2,
                first: 3,
                count: 1,
            },
        ],
        constituents: &[
            ConstituentRow { first: 0, count: 4 },
            ConstituentRow { first: 4, count: 1 },
            ConstituentRow { first: 5, count: 1 },
            ConstituentRow { first: 6, count: 2 },
        ],
        symbols: &[
            Symbol::Token(0),
            Symbol::Argument(1, 1),
            Symbol::Token(1),
            Symbol::Argument(1, 1),
            Symbol::Token(2),
            Symbol::Token(3),
            Symbol::Argument(1, 1),
            Symbol::Argument(2, 1),
        ],
        places: &[
            Some(PlaceRow {
                result: 0,
                function: 0,
                first: 0,
                count: 1,
            }),
            Some(PlaceRow {
                result: 1,
                function: 1,
                first: 1,
                count: 0,
            }),
            Some(PlaceRow {
                result: 1,
                function: 2,
                first: 1,
                count: 0,
            }),
            Some(PlaceRow {
                result: 1,
                function: 3,
                first: 1,
                count: 2,
            }),
        ],
        arguments: &[1, 1, 1],
    }
}

// E, the empty string, doubled: S -> f[S], S -> z[], with f := (<1;1> <1;1>).
fn doubles() -> Table<'static> {
    Table {
        tokens: 0,
        start: 0,
        dimensions: &[1],
        functions: &[
            FunctionRow {
                arity: 1,
                first: 0,
                count: 1,
            },
            FunctionRow {
                arity: 0,
                first: 1,
                count: 1,
            },
        ],
        constituents: &[
            ConstituentRow { first: 0, count: 2 },
            ConstituentRow { first: 2, count: 0 },
        ],
        symbols: &[Symbol::Argument(1, 1), Symbol::Argument(1, 1)],
        places: &[
            Some(PlaceRow {
                result: 0,
                function: 0,
                first: 0,
                count: 1,
            }),
            Some(PlaceRow {
                result: 0,
                function: 1,
                first: 1,
                count: 0,
            }),
        ],
        arguments: &[0],
    }
}

// The cells in use after these tokens, in an area of 100 cells, where they are taken.
fn used(table: Table<'_>, tokens: &[u32]) -> Option<usize> {
    let mut area = [ZERO; 100];
    told_after(&table, &mut area, tokens).map(|told| told.used)
}

// Whether no cell is in use.
fn all_unused(cells: &[Cell]) -> bool {
    cells.iter().all(|cell| matches!(cell.row, Row::Nothing))
}

#[test]
fn cells_in_use(rt: HostRuntime) {
    assert_eq!(rt; used(doubles(), &[]), Some(16));
    assert_eq!(rt; used(counts(), &[]), Some(38));
    assert_eq!(rt; used(counts(), &[0]), Some(47));
    assert_eq!(rt; used(counts(), &[0, 0]), Some(58));
    assert_eq!(rt; used(counts(), &[0, 0, 1, 1, 2, 2]), Some(84));
    assert_eq!(rt; used(copies(), &[0, 2, 2, 2, 1, 2, 2, 2]), Some(73));
}

#[test]
fn most_tokens(rt: HostRuntime) -> Result<(), Fail> {
    let mut area = [ZERO; 5000];
    let told = told_after(&counts(), &mut area, &[0; 64]).ok_or_else(|| Fail::new(
        "64 tokens are not taken",
    ))?;
    assert_eq!(rt; told.used, 4646);
    Ok(())
}

#[test]
fn just_enough_cells(rt: HostRuntime) {
    let mut area = [ZERO; 16];
    assert!(rt; told_after(&doubles(), &mut area, &[]).is_some());
}

#[test]
fn too_short(rt: HostRuntime) {
    let mut area = [Cell {
        row: Row::Token(7),
        ..ZERO
    }; 15];
    let opened = open_area(&doubles(), &mut area);
    assert!(rt;
        matches!(opened, Err(OpeningFault::TooShort)),
        "an area of 15 cells is not refused as too short"
    );
    assert!(rt; all_unused(&area));
}

#[test]
fn next_and_complete(rt: HostRuntime) -> Result<(), Fail> {
    let mut area = [ZERO; 100];
    let told = told_after(&counts(), &mut area, &[]).ok_or_else(|| Fail::new("no token is taken"))?;
    assert_eq!(rt; told.next, [true, false, false, false]);
    assert!(rt; told.complete);
    let told = told_after(&counts(), &mut area, &[0, 0, 1]).ok_or_else(|| Fail::new(
        "three tokens are not taken",
    ))?;
    assert_eq!(rt; told.next, [false, true, false, false]);
    assert!(rt; !told.complete);
    Ok(())
}
