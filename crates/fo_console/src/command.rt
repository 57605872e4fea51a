//! What is asked at the console.
use fo_world::Name;

/// A command. A path is the list of its names, empty for the root.
#[derive(Debug, Drop)]
pub enum Command {
    Sync,
    /// A snapshot, to be archived as well where that is said.
    Snap {
        archive: bool,
    },
    /// The low and the high epoch.
    Epoch,
    /// A new low epoch.
    Low(u32),
    /// No archive of the pending epoch.
    Cancel,
    /// Used and free blocks.
    Df,
    Check,
    Halt,
    Unhalt,
    /// A new file, or a directory where the permissions have the bit DMDIR.
    Create {
        path: Vec<Name>,
        uid: Name,
        gid: Name,
        perm: u32,
    },
    Remove(Vec<Name>),
    Stat(Vec<Name>),
    /// The table of users.
    Users,
}
