//! A match as one HTML page, which loads nothing and runs no script: cards, falls, overs, charts and corrections.
#![tactic(auto)]

mod bars;
mod batting;
mod book_part;
mod bowling;
mod charts;
mod dismissals;
mod escapes;
mod facts;
mod fall_list;
mod growth;
mod idle;
mod innings;
mod laws;
mod moments;
mod overs;
mod printing;
mod result;
mod ruled;
mod stands;
mod template;
mod title;

pub use laws::{every_tag_is_listed, no_text_is_markup};
pub use printing::page_of;
