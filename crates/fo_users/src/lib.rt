//! The table of users, and who may do what (users(6) and stat(5) of the Plan 9 manual).
#![tactic(auto)]

mod error;
mod laws;
mod read;
mod right;
mod standard;
mod table;

pub use error::UsersError;
pub use fo_world::{Info, Name};
pub use laws::tables_are_found;
pub use read::read_users;
pub use right::Right;
pub use table::Users;
