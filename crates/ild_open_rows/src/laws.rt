//! Laws of roots and the walks over them.
ghost use Rattle.ild_open_rows.specs.Rooted.{EntriesAreGiven, RowsAreEntries};

/// The rows that a walk lists are the entries that the root splits into, in the order of keys.
pub fn rows_are_entries()
    ensures { RowsAreEntries }
{}

/// The blocks beneath a root give the entries that it splits into, and are as many as the nodes beneath it.
pub fn entries_are_given()
    ensures { EntriesAreGiven }
{}
