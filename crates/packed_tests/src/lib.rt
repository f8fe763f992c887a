// Tests of packed files: the worked example, a file with every kind of record, and each fault at its offset.
#![tactic(auto)]

#[cfg(test)]
mod tests {
    use grammar::{Place, Source, Symbol};
    use packed::Packed;
    use records::Kind;
    use std::test::Fail;

    // One category of dimension 1, one function of arity 0 whose constituent is token 0, and one place.
    const WORD: [u8; 36] = [
        6, 0, 1, 0, 1, 0, 0, 0, 4, 0, 2, 0, 1, 0, 4, 0, 3, 0, 0, 0, 6, 0, 4, 0, 0, 0, 0, 0, 6, 0,
        5, 0, 0, 0, 0, 0,
    ];

    // Every kind of record: three tokens, start 0; dimensions 1 and 2; F0 of arity 1 with (1 <1;2>), F1 with two empty
    // constituents; places C0 -> F0[C1], empty, C1 -> F1[].
    const EVERY: [u8; 74] = [
        6, 0, 1, 0, 3, 0, 0, 0, 4, 0, 2, 0, 1, 0, 4, 0, 2, 0, 2, 0, 4, 0, 3, 0, 1, 0, 10, 0, 4, 0,
        0, 0, 1, 0, 1, 0, 2, 0, 4, 0, 3, 0, 0, 0, 2, 0, 4, 0, 2, 0, 4, 0, 8, 0, 5, 0, 0, 0, 0, 0,
        1, 0, 2, 0, 6, 0, 6, 0, 5, 0, 1, 0, 1, 0,
    ];

    // Bytes that spell no grammar, with the number of the fault and the offset of the bad record.
    #[derive(Clone, Copy)]
    struct Bad {
        bytes: &'static [u8],
        number: u32,
        offset: usize,
    }

    // The number and the offset of the fault, if there is one.
    fn fault_of(bytes: &[u8]) -> Option<(u32, usize)> {
        let fault = Packed::read(bytes).err()?;
        Some((fault.number(), fault.offset()))
    }

    #[test]
    fn worked_example(rt: HostRuntime) -> Result<(), Fail> {
        let file = Packed::read(&WORD).map_err(|_| Fail::new("the example is refused"))?;
        assert_eq!(rt; (file.tokens(), file.start()), (1, 0));
        assert_eq!(rt;
            (file.categories(), file.functions(), file.places()),
            (1, 1, 1)
        );
        assert_eq!(rt; (file.dimension(0), file.dimension(1)), (Some(1), None));
        assert_eq!(rt; (file.arity(0), file.constituents(0)), (Some(0), Some(1)));
        assert_eq!(rt; file.symbol(0, 1, 1), Some(Symbol::Token(0)));
        assert_eq!(rt; file.symbol(0, 1, 2), None);
        assert_eq!(rt;
            file.place(0),
            Some(Place {
                result: 0,
                function: 0,
            })
        );
        assert_eq!(rt; file.argument(0, 1), None);
        Ok(())
    }

    #[test]
    fn every_kind(rt: HostRuntime) -> Result<(), Fail> {
        let file = Packed::read(&EVERY).map_err(|_| Fail::new("the file is refused"))?;
        assert_eq!(rt;
            (file.count_of(Kind::Head), file.count_of(Kind::Category)),
            (1, 2)
        );
        assert_eq!(rt;
            (
                file.count_of(Kind::Function),
                file.count_of(Kind::Constituent),
            ),
            (2, 3)
        );
        assert_eq!(rt;
            (file.count_of(Kind::Filled), file.count_of(Kind::Empty)),
            (2, 1)
        );
        assert_eq!(rt; (file.dimension(1), file.arity(1)), (Some(2), Some(0)));
        assert_eq!(rt;
            (file.symbol(0, 1, 1), file.symbol(0, 1, 2)),
            (Some(Symbol::Token(1)), Some(Symbol::Argument(1, 2)))
        );
        assert_eq!(rt; (file.symbol(1, 1, 1), file.symbol(1, 3, 1)), (None, None));
        assert_eq!(rt; (file.place(1), file.place(3)), (None, None));
        assert_eq!(rt;
            file.place(2),
            Some(Place {
                result: 1,
                function: 1,
            })
        );
        assert_eq!(rt;
            (
                file.argument(0, 1),
                file.argument(0, 2),
                file.argument(0, 0),
            ),
            (Some(1), None, None)
        );
        Ok(())
    }

    #[test]
    fn faults_at_their_offsets(rt: HostRuntime) {
        let cases = [
            // no bytes; half a length; a record that lacks its last byte
            Bad {
                bytes: &[],
                number: 3,
                offset: 0,
            },
            Bad {
                bytes: &[6],
                number: 1,
                offset: 0,
            },
            Bad {
                bytes: &WORD[0..35],
                number: 1,
                offset: 28,
            },
            // a length below 2; an unknown kind; a head of three numbers
            Bad {
                bytes: &[1, 0, 1, 0],
                number: 2,
                offset: 0,
            },
            Bad {
                bytes: &[2, 0, 7, 0],
                number: 2,
                offset: 0,
            },
            Bad {
                bytes: &[8, 0, 1, 0, 1, 0, 0, 0, 0, 0],
                number: 2,
                offset: 0,
            },
            // no head first; a second head; a constituent without a function; a category after a place
            Bad {
                bytes: &[4, 0, 2, 0, 1, 0],
                number: 3,
                offset: 0,
            },
            Bad {
                bytes: &[6, 0, 1, 0, 1, 0, 0, 0, 6, 0, 1, 0, 1, 0, 0, 0],
                number: 3,
                offset: 8,
            },
            Bad {
                bytes: &[6, 0, 1, 0, 1, 0, 0, 0, 2, 0, 4, 0],
                number: 3,
                offset: 8,
            },
            Bad {
                bytes: &[6, 0, 1, 0, 1, 0, 0, 0, 2, 0, 6, 0, 4, 0, 2, 0, 1, 0],
                number: 3,
                offset: 12,
            },
            // in one record the lowest number wins: past the end and unknown; unknown and out of order
            Bad {
                bytes: &[9, 0, 7, 0],
                number: 1,
                offset: 0,
            },
            Bad {
                bytes: &[4, 0, 9, 0, 1, 0],
                number: 2,
                offset: 0,
            },
        ];
        for case in &cases {
            assert_eq!(rt; fault_of(case.bytes), Some((case.number, case.offset)));
        }
        assert_eq!(rt; fault_of(&WORD), None);
    }
}
