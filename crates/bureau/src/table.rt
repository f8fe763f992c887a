// The table at the end of a file of notes.
use anyhow::Result;

// How a note was read, to a depth.
#[derive(Clone, Copy, PartialEq, Eq)]
pub(crate) enum Sort {
    // A token of it was refused.
    Unreadable,
    // All tokens were accepted, and they are no start tree's string.
    Incomplete,
    // It is complete, and no start tree of it keeps to the depth.
    TooDeep,
    OneReading,
    SeveralReadings,
}

// How many notes of each sort there are, and lines that are no note.
#[derive(Clone, Copy, Default)]
pub(crate) struct Table {
    notes: u64,
    unreadable: u64,
    incomplete: u64,
    too_deep: u64,
    one: u64,
    several: u64,
    bad: u64,
}

impl Table {
    // Counts a note.
    pub(crate) fn add(&mut self, sort: Sort) {
        self.notes = self.notes.saturating_add(1);
        let count = match sort {
            Sort::Unreadable => &mut self.unreadable,
            Sort::Incomplete => &mut self.incomplete,
            Sort::TooDeep => &mut self.too_deep,
            Sort::OneReading => &mut self.one,
            Sort::SeveralReadings => &mut self.several,
        };
        *count = count.saturating_add(1);
    }

    // Counts a line that is no note.
    pub(crate) fn add_bad(&mut self) {
        self.bad = self.bad.saturating_add(1);
    }

    pub(crate) fn print(&self, rt: &impl Print, depth: u32) -> Result<()> {
        let Table {
            notes,
            unreadable,
            incomplete,
            too_deep,
            one,
            several,
            bad,
        } = *self;
        println!(rt; "notes: {notes}")?;
        println!(rt; "unreadable: {unreadable}")?;
        println!(rt; "incomplete: {incomplete}")?;
        println!(rt; "one reading: {one}")?;
        println!(rt; "several readings: {several}")?;
        println!(rt; "no reading to depth {depth}: {too_deep}")?;
        println!(rt; "bad lines: {bad}")?;
        Ok(())
    }
}
