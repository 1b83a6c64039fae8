//! Bytes and numbers: what every codec and every port of the gateway stands on.
#![tactic(auto)]

mod byte_text;
mod header;
mod item_list;
mod memory;
mod numbers;
mod reading;
mod reserved_text;
mod scan;
mod stop;

pub use byte_text::ByteText;
pub use header::agreed_len;
pub use item_list::ItemList;
pub use memory::Memory;
pub use numbers::{put_u8, put_u16, put_u32, put_u64, take_u8, take_u16, take_u32, take_u64};
pub use reading::{long_in, place, short_in, u8_in, u16_in, u32_in, u64_in};
pub use reserved_text::ReservedText;
pub use scan::{At, Scan};
pub use stop::Stop;
