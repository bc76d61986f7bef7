//! Groups, count vectors, calendars, votes, events and rates of loops, bands, and drawn loops.

mod bands;
mod calendars;
mod count_vectors;
mod drawn;
mod events;
mod groups;
mod rates;
mod votes;
