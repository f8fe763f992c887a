ghost use Rattle.std.specs.Prelude.{◌≤◌};

// How many ways there are; a count stops at 1,000,000. It is a type beside `Cost`, and not one number with its bound as a parameter:
// sum and product of the two differ, and an algebra is an `impl` for one type.
#[derive(Clone, Copy, Debug, PartialEq, Eq)]
pub struct Count {
    pub(crate) ways: u32,
    ghost bounded: { ways ≤ 1000000 },
}
