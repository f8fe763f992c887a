// Whether there is any way at all: a truth value, and so a bool.
#[derive(Clone, Copy, Debug, PartialEq, Eq)]
pub struct YesNo {
    pub(crate) yes: bool,
}
