// What is proved of areas. Each clause is one theorem; the functions do nothing.
ghost use Rattle.area.specs.Theorems.{OneHeld, OneRest, OneOpening, MoreInUse};

// What an area holds is determined by its cells and numbers; its numbers, and the cells that hold no fact, by what it holds; and what
// opening answers by the grammar and how many cells there are.
pub fn contents_are_one()
    ensures held { OneHeld }
    ensures rest { OneRest }
    ensures opening { OneOpening }
{}

// An area is too short exactly where the cells in use are more than it has.
pub fn too_short_is_counted()
    ensures { MoreInUse }
{}
