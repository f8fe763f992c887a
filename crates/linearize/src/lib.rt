// The string of a tree that is written as a list of place numbers, for the grammar of any source.
#![tactic(auto)]

ghost use Rattle.faults.specs.Sound.{Sound};
ghost use Rattle.linearize.specs.Linearizes.{Linearizes, OneAnswer};

mod lengths;
mod nodes;
mod reading;
mod refusal;
mod writing;
mod written;

use faults::Faultless;
use grammar::Source;
use nodes::Node;
pub use refusal::Unlinearized;
use written::Written;

// The most numbers that a list of places may have.
pub const NUMBERS: usize = 256;

// Writes the string of the start tree that the list writes to the front of the output, and answers its length.
pub fn linearize<S: Source>(
    source: &S,
    list: &[u32],
    output: &mut [u32],
) -> Result<usize, Unlinearized>
    requires { Sound (S.meaning source.now) }
    ensures { Linearizes (S.meaning source.now) list.now output.old output.new result }
{
    if list.len() > NUMBERS {
        return Err(Unlinearized::NoTree);
    }
    let written = Written {
        grammar: Faultless { source },
        list,
    };
    // An array and no `ArrayVec`: the table is filled from its far end. The list and the output are the caller's slices: no heap.
    let mut nodes = [Node::default(); NUMBERS];
    written.read_start(&mut nodes).ok_or(Unlinearized::NoTree)?;
    if nodes[0].first > output.len() {
        return Err(Unlinearized::TooShort);
    }
    Ok(written.write_constituent(&nodes, 0, 1, output, 0))
}

// At most one answer is right.
pub fn answer_is_one()
    ensures { OneAnswer }
{}
