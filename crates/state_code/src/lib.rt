//! Values as bytes: the fields that saved states and stored records are made of, the cursor that reads them
//! back, and the spelling that a value has, of which none begins another.
#![tactic(auto)]

mod cursor;
mod fault;
mod fields;
mod groups;
mod laws;
mod levels;
mod lists;
mod maps;
mod numbers;
mod parts;
mod points;
mod spelled;
mod values;

pub use cursor::Cursor;
pub use fault::CodeFault;
pub use fields::{put_bytes, put_i64, put_text, put_u8, put_u32, put_u64};
pub use laws::{byte_string_laws, spelling_laws};
pub use lists::put_items;
pub use spelled::Spelled;
