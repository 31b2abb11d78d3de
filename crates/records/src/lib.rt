// The reader of site files: document 01's records. A `Reader` holds the lent file and its place, and takes one record
// after another into a `Draft`; `read_site` reads a whole file so, into lent lists.
#![tactic(auto)]

pub mod complaint;
pub mod draft;
mod filling;
pub mod kind;
pub mod reader;
mod records;
pub mod site;
pub mod whole;
