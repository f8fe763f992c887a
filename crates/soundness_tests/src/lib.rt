// Tests of the check before opening: a good grammar, each cause at each sort of thing, and two faults at once.
#![tactic(auto)]

#[cfg(test)]
mod tests {
    use grammar::Symbol;
    use soundness::check as check_source;
    use sources::{ConstituentRow, FunctionRow, PlaceRow, Table};
    use std::test::Fail;

    const F1: FunctionRow = FunctionRow {
        arity: 0,
        first: 1,
        count: 2,
    };

    const F0: FunctionRow = FunctionRow {
        arity: 1,
        first: 0,
        count: 1,
    };

    const PLACE_0: Option<PlaceRow> = Some(PlaceRow {
        result: 0,
        function: 0,
        first: 0,
        count: 1,
    });

    const PLACE_1: Option<PlaceRow> = Some(PlaceRow {
        result: 1,
        function: 1,
        first: 0,
        count: 0,
    });

    const FOUR: FunctionRow = FunctionRow {
        arity: 4,
        first: 0,
        count: 1,
    };

    const WIDE: FunctionRow = FunctionRow {
        arity: 0,
        first: 0,
        count: 4,
    };

    const NO_FUNCTION: Option<PlaceRow> = Some(PlaceRow {
        result: 0,
        function: 2,
        first: 0,
        count: 1,
    });

    const NO_RESULT: Option<PlaceRow> = Some(PlaceRow {
        result: 2,
        function: 0,
        first: 0,
        count: 1,
    });

    const NO_RESULT_NO_ARGUMENTS: Option<PlaceRow> = Some(PlaceRow {
        result: 2,
        function: 0,
        first: 0,
        count: 0,
    });

    const NO_ARGUMENTS: Option<PlaceRow> = Some(PlaceRow {
        result: 0,
        function: 0,
        first: 0,
        count: 0,
    });

    const NARROW: Option<PlaceRow> = Some(PlaceRow {
        result: 1,
        function: 0,
        first: 0,
        count: 1,
    });

    const BEYOND: Option<PlaceRow> = Some(PlaceRow {
        result: 0,
        function: 0,
        first: 0,
        count: 2,
    });

    const HIGH: [Symbol; 4] = [
        Symbol::Token(0),
        Symbol::Argument(1, 1),
        Symbol::Argument(1, 3),
        Symbol::Token(1),
    ];

    // C0 -> F0[C1] and C1 -> F1[], with F0 := (0 <1;1> <1;2>), F1 := (1) (), dimensions 1 and 2.
    fn good() -> Table<'static> {
        Table {
            tokens: 2,
            start: 0,
            dimensions: &[1, 2],
            functions: &[F0, F1],
            constituents: &[
                ConstituentRow { first: 0, count: 3 },
                ConstituentRow { first: 3, count: 1 },
                ConstituentRow { first: 4, count: 0 },
            ],
            symbols: &[
                Symbol::Token(0),
                Symbol::Argument(1, 1),
                Symbol::Argument(1, 2),
                Symbol::Token(1),
            ],
            places: &[PLACE_0, PLACE_1],
            arguments: &[1],
        }
    }

    // The number of the refusal, the sort of the thing and its number; all 0 where the table may be opened. Plain numbers, as the
    // expected values of these tests are written.
    fn refused(table: Table<'_>) -> (u32, u32, u32) {
        match check_source(&table) {
            Ok(_) => (0, 0, 0),
            Err(fault) => {
                let (sort, number) = fault
                    .thing()
                    .map_or((0, 0), |thing| (thing.sort(), thing.number()));
                (fault.number(), sort, number)
            }
        }
    }

    #[test]
    fn good_grammar(rt: HostRuntime) -> Result<(), Fail> {
        let shape = check_source(&good()).map_err(|_| Fail::new("the good grammar is refused"))?;
        assert_eq!(rt; (shape.tokens, shape.start, shape.categories), (2, 0, 2));
        assert_eq!(rt;
            (shape.functions, shape.constituents, shape.symbols),
            (2, 3, 4)
        );
        assert_eq!(rt; (shape.places, shape.arguments), (2, 1));
        assert_eq!(rt; (shape.heights[0], shape.heights[1]), (2, 1));
        Ok(())
    }

    // 4 at the counts and the categories, 5 and 6 at the start, and 7.
    #[test]
    fn counts_categories_and_start(rt: HostRuntime) {
        assert_eq!(rt;
            refused(Table {
                tokens: 1025,
                ..good()
            }),
            (4, 0, 0)
        );
        assert_eq!(rt;
            refused(Table {
                dimensions: &[1; 65],
                ..good()
            }),
            (4, 0, 1)
        );
        assert_eq!(rt;
            refused(Table {
                functions: &[F1; 513],
                ..good()
            }),
            (4, 0, 2)
        );
        assert_eq!(rt;
            refused(Table {
                places: &[PLACE_1; 513],
                ..good()
            }),
            (4, 0, 3)
        );
        assert_eq!(rt;
            refused(Table {
                dimensions: &[1, 0],
                ..good()
            }),
            (4, 1, 1)
        );
        assert_eq!(rt;
            refused(Table {
                dimensions: &[4, 2],
                ..good()
            }),
            (4, 1, 0)
        );
        assert_eq!(rt; refused(Table { start: 2, ..good() }), (5, 2, 0));
        assert_eq!(rt; refused(Table { start: 1, ..good() }), (6, 2, 0));
        assert_eq!(rt;
            refused(Table {
                places: &[PLACE_0, None],
                ..good()
            }),
            (7, 0, 0)
        );
    }

    // 4 and 5 at functions: too many arguments, constituents or symbols; a token, k or l that names nothing.
    #[test]
    fn functions(rt: HostRuntime) {
        assert_eq!(rt;
            refused(Table {
                functions: &[FOUR, F1],
                ..good()
            }),
            (4, 3, 0)
        );
        assert_eq!(rt;
            refused(Table {
                functions: &[F0, WIDE],
                constituents: &[ConstituentRow { first: 0, count: 0 }; 4],
                ..good()
            }),
            (4, 3, 1)
        );
        assert_eq!(rt;
            refused(Table {
                constituents: &[ConstituentRow {
                    first: 0,
                    count: 17,
                }; 3],
                symbols: &[Symbol::Token(0); 17],
                ..good()
            }),
            (4, 3, 0)
        );
        assert_eq!(rt;
            refused(Table {
                symbols: &[Symbol::Token(2); 4],
                ..good()
            }),
            (5, 3, 0)
        );
        assert_eq!(rt;
            refused(Table {
                symbols: &[Symbol::Argument(0, 1); 4],
                ..good()
            }),
            (5, 3, 0)
        );
        assert_eq!(rt;
            refused(Table {
                symbols: &[Symbol::Argument(2, 1); 4],
                ..good()
            }),
            (5, 3, 0)
        );
        assert_eq!(rt;
            refused(Table {
                symbols: &[Symbol::Argument(1, 0); 4],
                ..good()
            }),
            (5, 3, 0)
        );
    }

    // 5 and 6 at places: what names nothing, and what does not fit.
    #[test]
    fn places(rt: HostRuntime) {
        assert_eq!(rt;
            refused(Table {
                places: &[NO_FUNCTION, PLACE_1],
                ..good()
            }),
            (5, 4, 0)
        );
        assert_eq!(rt;
            refused(Table {
                places: &[PLACE_0, PLACE_1, NO_RESULT],
                ..good()
            }),
            (5, 4, 2)
        );
        assert_eq!(rt;
            refused(Table {
                arguments: &[2],
                ..good()
            }),
            (5, 4, 0)
        );
        assert_eq!(rt;
            refused(Table {
                places: &[NO_ARGUMENTS, PLACE_1],
                ..good()
            }),
            (6, 4, 0)
        );
        assert_eq!(rt;
            refused(Table {
                places: &[PLACE_0, PLACE_1, None, NARROW],
                ..good()
            }),
            (6, 4, 3)
        );
        assert_eq!(rt;
            refused(Table {
                symbols: &HIGH,
                ..good()
            }),
            (6, 4, 0)
        );
    }

    // The first in the order counts, categories, start, functions, places; at one thing 4 before 5 before 6; an argument
    // BEYOND the arity is never asked for 5.
    #[test]
    fn two_at_once(rt: HostRuntime) {
        assert_eq!(rt;
            refused(Table {
                tokens: 1025,
                start: 9,
                ..good()
            }),
            (4, 0, 0)
        );
        assert_eq!(rt;
            refused(Table {
                start: 9,
                dimensions: &[1, 0],
                ..good()
            }),
            (4, 1, 1)
        );
        assert_eq!(rt;
            refused(Table {
                start: 1,
                symbols: &[Symbol::Token(2); 4],
                ..good()
            }),
            (6, 2, 0)
        );
        assert_eq!(rt;
            refused(Table {
                symbols: &[Symbol::Token(2); 4],
                arguments: &[2],
                ..good()
            }),
            (5, 3, 0)
        );
        assert_eq!(rt;
            refused(Table {
                functions: &[FOUR, F1],
                symbols: &[Symbol::Token(2); 4],
                ..good()
            }),
            (4, 3, 0)
        );
        assert_eq!(rt;
            refused(Table {
                places: &[BEYOND, PLACE_1],
                arguments: &[1, 9],
                ..good()
            }),
            (6, 4, 0)
        );
        assert_eq!(rt;
            refused(Table {
                places: &[NO_RESULT_NO_ARGUMENTS, PLACE_1],
                ..good()
            }),
            (5, 4, 0)
        );
    }
}
