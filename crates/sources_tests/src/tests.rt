// What a pile answers, what is refused, and rows that run past their slices.
use super::{first_empty_of_pile, two_places};
use grammar::{Place, Source, Symbol};
use sources::{ConstituentRow, FunctionRow, Lexicon, PlaceRow, Strike, Table};
use std::test::Fail;

#[test]
fn pile_of_three(rt: HostRuntime) -> Result<(), Fail> {
    assert_eq!(rt; first_empty_of_pile()?, Some(1));
    let mut strike = Strike::over(two_places());
    strike.mark(1)?;
    let mut pile = Lexicon::over(strike);
    pile.add(0, 1)?;
    assert_eq!(rt; pile.place(1), None);
    assert_eq!(rt;
        pile.place(2),
        Some(Place {
            result: 0,
            function: 1,
        })
    );
    assert_eq!(rt; pile.symbol(1, 1, 1), Some(Symbol::Token(1)));
    Ok(())
}

#[test]
fn marks_over_words(rt: HostRuntime) -> Result<(), Fail> {
    let mut words = Lexicon::over(two_places());
    words.add(0, 1)?;
    let mut strike = Strike::over(words);
    strike.mark(2)?;
    assert_eq!(rt;
        strike.place(1),
        Some(Place {
            result: 0,
            function: 0,
        })
    );
    assert_eq!(rt; strike.place(2), None);
    Ok(())
}

#[test]
fn no_room(rt: HostRuntime) -> Result<(), Fail> {
    let mut strike = Strike::over(two_places());
    strike.mark(511)?;
    let Err(above) = strike.mark(512) else {
        return Err(Fail::new("a mark above 511"));
    };
    let mut words = Lexicon::over(strike);
    for _ in 0..64 {
        words.add(0, 1)?;
    }
    let Err(full) = words.add(0, 1) else {
        return Err(Fail::new("a 65th entry"));
    };
    assert!(rt; above.number() == 15 && full.number() == 15 && words.places() == 66);
    Ok(())
}

#[test]
fn numbers_that_name_nothing(rt: HostRuntime) -> Result<(), Fail> {
    let table = Table {
        tokens: 1,
        start: 0,
        dimensions: &[1],
        functions: &[FunctionRow {
            arity: 0,
            first: 1,
            count: 9,
        }],
        constituents: &[
            ConstituentRow { first: 0, count: 0 },
            ConstituentRow { first: 7, count: 1 },
        ],
        symbols: &[],
        places: &[Some(PlaceRow {
            result: 0,
            function: 1,
            first: 0,
            count: 0,
        })],
        arguments: &[],
    };
    assert_eq!(rt; table.constituents(0), Some(1));
    assert_eq!(rt; table.symbol(0, 1, 1), None);
    let mut words = Lexicon::over(table);
    words.add(0, 0)?;
    assert_eq!(rt;
        words.place(0),
        Some(Place {
            result: 0,
            function: u32::MAX,
        })
    );
    Ok(())
}
