// The register: quotes filed as numbered lines in lent bytes, checked and found again. The calls take bytes and a used length side by
// side, and a first number with 0 for the default, as C hands them over.
#![tactic(auto)]

pub mod answers;
mod checking;
mod filing;
mod finding;
mod layout;
mod text;

pub use checking::check;
pub use filing::{file, file_all, file_lines};
pub use finding::{find_member, find_number, locate_member, locate_number};
pub use layout::LINE_LENGTH;
