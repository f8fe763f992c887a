// Algebras for weighing: values with a sum and a product that keep the laws of a semiring.
#![tactic(auto)]

ghost use Rattle.std.specs.Prelude.{◌≡◌, ℕ};
ghost use Rattle.algebra.specs.Laws.{Laws};
ghost use Rattle.algebra.specs.Sums.{sum_of, weighted};
ghost use Rattle.algebra.specs.Theorems.{SumInAnyOrder, SumOfConcatenation, FactorOfSum, ProductOfSums, CombinationsAreChoices, CombinationsAreDistinct};

// A semiring whose values are kept as plain 32-bit numbers. The ghost members say what its functions answer.
pub trait Algebra: Copy {
    ghost nought: { Self };

    ghost unit: { Self };

    ghost plus: { Self → Self → Self };

    ghost times: { Self → Self → Self };

    ghost reads: { ℕ → Self };

    ghost writes: { Self → ℕ };

    fn zero() -> Self
        ensures { result ≡ nought };

    fn one() -> Self
        ensures { result ≡ unit };

    fn sum(self, other: Self) -> Self
        ensures { result ≡ plus self other };

    fn product(self, other: Self) -> Self
        ensures { result ≡ times self other };

    // The value that a number stands for; every number stands for one.
    fn read(number: u32) -> Self
        ensures { result ≡ reads number };

    // The number that the value is kept as, which reads as the value again.
    fn write(self) -> u32
        ensures { result ≡ writes self };

    // What each `impl` proves, and generic code may use.
    ghost lawful: { Laws nought unit plus times reads writes };
}

// The sum of weight times value over the pairs of two lists of numbers, up to the end of the shorter list.
pub fn weighted_sum<A: Algebra>(weights: &[u32], values: &[u32]) -> u32
    ensures { result ≡ A.writes (sum_of A.nought A.plus (weighted A.times A.reads weights.now values.now)) }
{
    let mut total = A::zero();
    for (weight, value) in weights.iter().zip(values.iter()) {
        total = total.sum(A::read(*weight).product(A::read(*value)));
    }
    total.write()
}

// In every algebra the order of a sum does not matter.
pub fn sum_in_any_order<A: Algebra>()
    ensures { SumInAnyOrder A.nought A.plus }
{}

// In every algebra the sum over a concatenation is the sum of the sums.
pub fn sum_of_concatenation<A: Algebra>()
    ensures { SumOfConcatenation A.nought A.plus }
{}

// In every algebra a factor on either side of a sum goes to each value of the sum.
pub fn factor_of_sum<A: Algebra>()
    ensures { FactorOfSum A.nought A.plus A.times }
{}

// In every algebra a product of sums is the sum over the combinations of their products.
pub fn product_of_sums<A: Algebra, T>()
    ensures { ProductOfSums T A.nought A.plus A.times }
{}

// The combinations of several lists are exactly the ways of choosing one element from each.
pub fn combinations_are_choices<T>()
    ensures { CombinationsAreChoices T }
{}

// Where no list has an element twice, no combination stands twice.
pub fn combinations_are_distinct<T>()
    ensures { CombinationsAreDistinct T }
{}
