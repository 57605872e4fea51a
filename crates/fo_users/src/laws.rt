//! A law of tables. The function does nothing: its contract is the law, so that the law is proved with the crate.
ghost use Rattle.fo_users.specs.Found.{TablesAreFound};

/// A table is found in bytes exactly where they spell it.
pub fn tables_are_found()
    ensures { TablesAreFound }
{}
