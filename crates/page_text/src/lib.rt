//! Text for a page of HTML: what is put into a page is escaped, and markup comes from a table of names alone. So no text
//! that a page shows can end an element or an attribute, or begin one.
#![tactic(auto)]

mod elements;
pub mod escape;
pub mod marks;
pub mod page;
