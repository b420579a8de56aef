//! The rules that keep a patch from being built: of a section of its object, of a line of its file,
//! and of an entry of a relocation section.
#![tactic(auto)]

mod lines;
mod links;
mod sections;

pub use lines::LineRule;
pub use links::LinkRule;
pub use sections::SectionRule;
