//! The rule of the input table, kept between any two atomic steps: what the words of one input's
//! table show, what each pass knows of them, and what a step tells its pass.
#![tactic(auto)]

mod law;
pub mod laws;
mod sample;
mod view;

pub use law::{Hands, Hears, Law, Learns, Looks, SeesClosing, TakesIn, Writes};
pub use sample::{sample_of, word_of};
pub use view::{HeardSample, Look, Shape, View};
