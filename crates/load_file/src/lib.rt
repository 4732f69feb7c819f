// Reading a load file: the load that its bytes spell, or the first refusal, 1 to 8 or 21.
#![tactic(auto)]

mod read;
mod read_parts;
mod read_row;
mod read_steps;
mod read_windows;

pub use read::read_load;
