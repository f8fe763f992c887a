ghost use Rattle.std.specs.Prelude.{◌≤◌};

// What the cheapest way costs; 4,294,967,295 says that there is none. It is no Option: that number is the greatest, so that the lesser of
// two costs and the stopped sum come out right with no case for none, and a value is kept in 32 bits.
#[derive(Clone, Copy, Debug, PartialEq, Eq)]
pub struct Cost {
    pub(crate) price: u32,
    ghost bounded: { price ≤ 4294967295 },
}
