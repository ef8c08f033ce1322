//! The command `page`: a schedule's run as one page for a browser.
#![tactic(auto)]

mod changed;
mod comments;
mod data;
mod explorer;
mod frame;
mod heading;
mod made;
mod page;
mod played;
mod prefixes;
mod script;
mod sees;
mod sheet;
mod states;
mod step_text;
mod story;
mod style;
mod texts;
mod tree;
mod tree_data;
mod waits;

pub use comments::{Comments, comments_in};
pub use explorer::{
    Explored, Extent, MOST_NODES, explorer_command, levels_command, program_command,
};
pub use heading::Heading;
pub use made::{Making, made_file};
pub use page::{MOST_STEPS, Part, page_command};
pub use played::{OrderStory, order_story};
pub use step_text::StepText;
pub use story::{Opening, StepRange, Story, story_of};
