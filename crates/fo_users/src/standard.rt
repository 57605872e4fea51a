//! The table where there is no other.
ghost use Rattle.std.specs.Prelude.{◌≡◌, IfOk};
ghost use Rattle.fo_users.specs.Table.{standard_table};

use crate::read::read_users;
use crate::table::Users;
use fo_base::Memory;
use std::alloc::Global;

const STANDARD: &str = "adm:adm:adm:glenda\nnone:none::\nsys:sys::glenda\nglenda:glenda:glenda:\n";

impl Users {
    /// The table of `adm`, `none`, `sys` and `glenda`.
    pub fn standard(alloc: Global) -> Result<Users, Memory>
        ensures { IfOk result (λ u. u ≡ standard_table) }
    {
        match read_users(alloc, STANDARD.as_bytes()) {
            Ok(users) => Ok(users),
            Err(_) => Err(Memory),
        }
    }
}
