// Refusals of the layers in words. (Other refusals say themselves what they mean.)
pub(crate) const STRIKE: &str = "a place above 511 cannot be struck";

pub(crate) const WORD: &str = "there is no room for a 65th word";
