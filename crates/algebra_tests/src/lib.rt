// Examples of the three algebras: weighted sums, the bounds, and how odd numbers read.
#![tactic(auto)]

#[cfg(test)]
mod tests {
    use algebra::{Algebra, weighted_sum};
    use models::{Cost, Count, YesNo};

    #[test]
    fn yes_or_no(rt: HostRuntime) {
        assert_eq!(rt; weighted_sum::<YesNo>(&[1, 0, 2], &[0, 5, 7]), 1);
        assert_eq!(rt; weighted_sum::<YesNo>(&[0, 3, 1], &[9, 0]), 0);
        assert_eq!(rt; weighted_sum::<YesNo>(&[], &[1]), 0);
        assert_eq!(rt; YesNo::read(4_294_967_295).write(), 1);
        assert_eq!(rt; YesNo::one().sum(YesNo::one()).write(), 1);
    }

    #[test]
    fn counts_stop(rt: HostRuntime) {
        assert_eq!(rt; weighted_sum::<Count>(&[2, 3], &[5, 7, 11]), 31);
        assert_eq!(rt; weighted_sum::<Count>(&[999, 1000], &[1000, 1]), 1_000_000);
        assert_eq!(rt; weighted_sum::<Count>(&[1000, 1], &[1000, 1]), 1_000_000);
        assert_eq!(rt;
            weighted_sum::<Count>(&[4_294_967_295], &[4_294_967_295]),
            1_000_000
        );
        assert_eq!(rt; Count::read(999_999).write(), 999_999);
        assert_eq!(rt; Count::read(1_000_001).write(), 1_000_000);
    }

    #[test]
    fn cheapest_cost(rt: HostRuntime) {
        assert_eq!(rt; weighted_sum::<Cost>(&[5, 1, 8], &[2, 9]), 7);
        assert_eq!(rt;
            weighted_sum::<Cost>(&[4_294_967_290], &[10]),
            4_294_967_295
        );
        assert_eq!(rt; weighted_sum::<Cost>(&[], &[]), 4_294_967_295);
        assert_eq!(rt; Cost::one().product(Cost::read(3)).write(), 3);
        assert_eq!(rt; Cost::zero().product(Cost::one()).write(), 4_294_967_295);
    }
}
