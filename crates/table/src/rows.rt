// Parts of lent rows, and what stands in them.
ghost use Rattle.std.specs.Prelude.{◌≡◌, length, take, drop};
ghost use Rattle.std.specs.List.{slice_get};
ghost use Rattle.grammar.specs.Grammar.{from_one};
ghost use Rattle.table.specs.Rows.{part, stopped};

// The rows from `first` on: none where it is past the end.
fn rows_from<T>(rows: &[T], first: usize) -> &[T]
    ensures { result.now ≡ drop first rows.now }
{
    rows.get(first..).unwrap_or(&[])
}

// The first `count` rows, or all where there are fewer.
fn first_rows<T>(rows: &[T], count: usize) -> &[T]
    ensures { result.now ≡ take count rows.now }
{
    rows.get(..count).unwrap_or(rows)
}

// The `count` rows from `first` on, or as many of them as there are.
pub fn part_of<T>(rows: &[T], first: u32, count: u32) -> &[T]
    ensures { result.now ≡ part rows.now first count }
{
    first_rows(rows_from(rows, first as usize), count as usize)
}

// The rows, but for those that come after 4,294,967,295 others.
pub fn stopped_rows<T>(rows: &[T]) -> &[T]
    ensures { result.now ≡ stopped rows.now }
{
    first_rows(rows, u32::MAX as usize)
}

// How many rows there are, where no more than 4,294,967,295 count.
pub fn stopped_count<T>(rows: &[T]) -> u32
    ensures { result ≡ length (stopped rows.now) }
{
    u32::try_from(rows.len()).unwrap_or(u32::MAX)
}

// What stands at `number`, counted from 0.
pub fn row_at<T: Copy>(rows: &[T], number: u32) -> Option<T>
    ensures { result ≡ slice_get rows.now number }
{
    rows.get(number as usize).copied()
}

// What stands at `number`, counted from 1.
pub fn row_from_one<T: Copy>(rows: &[T], number: u32) -> Option<T>
    ensures { result ≡ from_one rows.now number }
{
    row_at(rows, number.checked_sub(1)?)
}
