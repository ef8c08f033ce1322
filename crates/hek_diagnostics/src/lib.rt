//! What is wrong at the place of a fault, what is wanted there, and what is meant: the lines that may follow the one line
//! of a fault.
#![tactic(auto)]

mod choice;
mod diagnostic;
mod event;
mod excerpt;
mod finding;
mod foreign;
mod image;
mod image_field;
mod known;
mod line;
mod looks;
mod names;
mod nearest;
mod numbers;
mod place;
mod reply;
mod schedule;
mod sentence;
mod step;
mod synonym;
mod token;
mod trace;
mod vocabulary;
mod words;

pub use diagnostic::{Diagnostic, Diagnostics, Listed};
pub use event::explain_event;
pub use excerpt::{Excerpt, pictured};
pub use image::{ImageDiagnostic, explain_image};
pub use looks::{OtherBytes, explain_bytes};
pub use nearest::nearest_word;
pub use place::Place;
pub use schedule::explain_text;
pub use sentence::Sentence;
pub use trace::explain_trace;
pub use vocabulary::Vocabulary;
