//! What is said of serial orders: anomalies in words, and whether the committed transactions of a run can follow one
//! another, with the order, or with who comes before whom.
#![tactic(auto)]

mod anomaly_words;
mod before;
mod cycle;
mod printing;
mod together;

pub use anomaly_words::Teller;
pub use before::{Before, Side};
pub use printing::{
    put_details, put_members, put_phrase, put_short, put_verdict, put_word, verdict_word,
};
pub use together::{Together, together_of};
