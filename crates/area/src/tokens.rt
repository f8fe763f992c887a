// The tokens at the far end of an area, and cells that are not in use.
ghost use Rattle.std.specs.Prelude.{◌≡◌, ℕ, ◌≤◌, List, length, take, drop, replicate};
ghost use Rattle.cells.specs.declared.Row.TheVariants.{Token};
ghost use Rattle.cells.specs.Facts.{zero_cell};
ghost use Rattle.copying.specs.Written.{plain};
ghost use Rattle.area.specs.Held.{TokensIn};

use arrayvec::ArrayVec;
use cells::{Cell, Row, ZERO};

// Sets every cell to zero.
pub fn clear(cells: &mut [Cell])
    ensures { cells.new ≡ replicate (length cells.old) zero_cell }
{
    cells.fill(ZERO);
}

// The cell of a token.
pub(crate) fn token_cell(token: u32) -> Cell
    ensures { result ≡ plain (Token token) }
{
    Cell {
        row: Row::Token(token),
        ..ZERO
    }
}

// The token in a row: 0 where it holds none.
fn token_in(row: Row) -> u32
    ensures { (t : ℕ) → row ≡ Token t → result ≡ t }
{
    match row {
        Row::Token(token) => token,
        _ => 0,
    }
}

// Reads the tokens that the area holds into the front of a list, and leaves its rest.
pub fn read_tokens(cells: &[Cell], held: usize, tokens: &mut [u32])
    requires { (held ≤ length cells.now) × (held ≤ length tokens.old) }
    ensures front { (w : List ℕ) → length w ≡ held → TokensIn cells.now w → take held tokens.new ≡ w }
    ensures rest { drop held tokens.new ≡ drop held tokens.old }
{
    // By index: of a list that is written through an adapter of `iter_mut` a proof knows only its length.
    for (i, cell) in cells.iter().rev().take(held).enumerate() {
        tokens[i] = token_in(cell.row);
    }
}

// The tokens that the area holds: exactly these.
pub fn held_tokens<const N: usize>(cells: &[Cell], held: usize) -> ArrayVec<u32, N>
    requires { (held ≤ length cells.now) × (held ≤ N) }
    ensures { (w : List ℕ) → length w ≡ held → TokensIn cells.now w → result.items ≡ w }
{
    let mut tokens = ArrayVec::from([0; N]);
    read_tokens(cells, held, &mut tokens);
    tokens.truncate(held);
    tokens
}
