//! Field tables of AMQP 0-9-1 (4.2.5.5), both ways.
#![tactic(auto)]

mod field;
mod kind;
mod laws;
mod reading;
mod writing;

pub use field::{Field, FieldList, Table};
pub use laws::table_laws;
pub use reading::{Syntax, next_table, read_table};
pub use writing::put_table;
