//! Records of a run: the items of each event, and their one text.
#![tactic(auto)]

mod items;
mod text;

pub use items::{Item, Items, Record};
pub use text::{head_text, put_entries, put_record, record_text};
