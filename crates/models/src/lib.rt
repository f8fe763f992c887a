// Three algebras: whether there is a way at all, how many ways there are, and what the cheapest one costs.
#![tactic(auto)]

ghost use Rattle.std.specs.Prelude.{◌+◌, ◌*◌, min, true, false, ◌&&◌, ◌||◌, if◌then◌else◌};
ghost use Rattle.models.specs.Values.{yes_no_of, yes_no_read, count_of, cost_of};
ghost use Rattle.std.proofs.Common.{rules, sym, ap, ◌∙◌, mul_assoc, mul-one, one-mul, mul-zero, zero-mul, mul-add, add-mul, arith};
ghost use Rattle.models.specs.Equal.{same_count, same_cost};
ghost use Rattle.models.specs.CountAlgebraLemmas.{stop, stopped, sum_left, sum_right, product_left, product_right};
ghost use Rattle.models.specs.CostAlgebraLemmas.{lesser};

mod cost;
mod count;
mod yes_no;

use algebra::Algebra;
pub use cost::Cost;
pub use count::Count;
pub use yes_no::YesNo;

impl Algebra for YesNo {
    ghost nought = { yes_no_of false };

    ghost unit = { yes_no_of true };

    ghost plus = { λ x y. yes_no_of (x.yes || y.yes) };

    ghost times = { λ x y. yes_no_of (x.yes && y.yes) };

    ghost reads = { yes_no_read };

    ghost writes = { λ x. (if x.yes then 1 else 0) };

    ghost lawful = { Prim.search rules };

    fn zero() -> YesNo {
        YesNo { yes: false }
    }

    fn one() -> YesNo {
        YesNo { yes: true }
    }

    fn sum(self, other: YesNo) -> YesNo {
        YesNo {
            yes: self.yes | other.yes,
        }
    }

    fn product(self, other: YesNo) -> YesNo {
        YesNo {
            yes: self.yes & other.yes,
        }
    }

    fn read(number: u32) -> YesNo {
        // Every number stands for a value: 0 for no, all others for yes.
        YesNo { yes: number != 0 }
    }

    fn write(self) -> u32 {
        u32::from(self.yes)
    }
}

impl Algebra for Count {
    ghost nought = { count_of 0 };

    ghost unit = { count_of 1 };

    ghost plus = { λ x y. count_of (x.ways + y.ways) };

    ghost times = { λ x y. count_of (x.ways * y.ways) };

    ghost reads = { count_of };

    ghost writes = { λ x. x.ways };

    ghost lawful = { record {
      sum_assoc = λ x y z. same_count _ _ (omega arith);
      sum_comm = λ x y. same_count _ _ (omega arith);
      sum_zero = λ x. same_count _ _ (omega arith);
      product_assoc = λ x y z. same_count _ _ (product_left _ z.ways ∙ ap stop (mul_assoc x.ways y.ways z.ways) ∙ sym (product_right x.ways _));
      product_one = λ x. same_count _ _ (ap stop (mul-one x.ways) ∙ stopped x);
      one_product = λ x. same_count _ _ (ap stop (one-mul x.ways) ∙ stopped x);
      product_zero = λ x. same_count _ _ (ap stop (mul-zero x.ways));
      zero_product = λ x. same_count _ _ (ap stop (zero-mul x.ways));
      product_sum = λ x y z. same_count _ _ (product_right x.ways _ ∙ ap stop (mul-add x.ways y.ways z.ways) ∙ sym (sum_left _ _ ∙ sum_right _ _));
      sum_product = λ x y z. same_count _ _ (product_left _ z.ways ∙ ap stop (add-mul x.ways y.ways z.ways) ∙ sym (sum_left _ _ ∙ sum_right _ _));
      writes_fits = λ x. omega arith;
      reads_writes = λ x. same_count _ _ (stopped x);
    } };

    fn zero() -> Count {
        Count::read(0)
    }

    fn one() -> Count {
        Count::read(1)
    }

    fn sum(self, other: Count) -> Count {
        Count::read(self.ways + other.ways)
    }

    fn product(self, other: Count) -> Count {
        Count::read(self.ways.saturating_mul(other.ways))
    }

    fn read(number: u32) -> Count {
        Count {
            ways: number.min(1_000_000),
        }
    }

    fn write(self) -> u32 {
        self.ways
    }
}

impl Algebra for Cost {
    ghost nought = { cost_of 4294967295 };

    ghost unit = { cost_of 0 };

    ghost plus = { λ x y. cost_of (min x.price y.price) };

    ghost times = { λ x y. cost_of (x.price + y.price) };

    ghost reads = { cost_of };

    ghost writes = { λ x. x.price };

    ghost lawful = { record {
      sum_assoc = λ x y z. same_cost _ _ (Prim.grind arith);
      sum_comm = λ x y. same_cost _ _ (Prim.grind arith);
      sum_zero = λ x. same_cost _ _ (omega arith);
      product_assoc = λ x y z. same_cost _ _ (omega arith);
      product_one = λ x. same_cost _ _ (omega arith);
      one_product = λ x. same_cost _ _ (omega arith);
      product_zero = λ x. same_cost _ _ (omega arith);
      zero_product = λ x. same_cost _ _ (omega arith);
      product_sum = λ x y z. same_cost _ _ (rw lesser (Prim.grind arith));
      sum_product = λ x y z. same_cost _ _ (rw lesser (Prim.grind arith));
      writes_fits = λ x. omega arith;
      reads_writes = λ x. same_cost _ _ (omega arith);
    } };

    fn zero() -> Cost {
        Cost::read(4_294_967_295)
    }

    fn one() -> Cost {
        Cost::read(0)
    }

    fn sum(self, other: Cost) -> Cost {
        Cost::read(self.price.min(other.price))
    }

    fn product(self, other: Cost) -> Cost {
        Cost::read(self.price.saturating_add(other.price))
    }

    fn read(number: u32) -> Cost {
        Cost { price: number }
    }

    fn write(self) -> u32 {
        self.price
    }
}
