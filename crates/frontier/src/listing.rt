// The marked numbers, in a lent list.
ghost use Rattle.std.specs.Prelude.{◌≡◌, ◌≤◌, length, count_by};
ghost use Rattle.frontier.specs.Listing.{marked_of, Listed, MarkedAreTheMarks};

// How many numbers are marked.
fn count(marks: &[bool]) -> usize
    ensures { result ≡ count_by (λ m. m) marks.now }
{
    marks.iter().filter(|m| **m).count()
}

// Writes the marked numbers at the front of the list, in ascending order, and answers how many they are. Where the list is too
// short for them, it stays as it is. The list is the caller's: no heap.
pub fn marked(marks: &[bool], list: &mut [u32]) -> Option<usize>
    requires { length marks.now ≤ 1024 }
    ensures { Listed (marked_of marks.now) list.old list.new result }
{
    if count(marks) > list.len() {
        return None;
    }
    // `n` by hand: of a list that is written through an adapter of iter_mut a proof knows only the length.
    let mut n = 0;
    for (t, m) in marks.iter().enumerate() {
        if *m {
            list[n] = t as u32;
            n += 1;
        }
    }
    Some(n)
}

// A number is listed exactly where it is marked, and the numbers ascend.
pub fn marked_are_the_marks()
    ensures { MarkedAreTheMarks }
{}
