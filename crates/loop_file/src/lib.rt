//! Loop files: a TOML document is read as a [`Loop`](sil_model::Loop), or refused with its first fault.
#![tactic(auto)]

mod entry;
mod fault;
mod given;
mod names;
mod place;
mod plan;
mod read;
mod shared;
mod subsystem_entry;
mod subsystems;
mod tree;
mod type_entry;
mod types;
mod values;

pub use read::read_loop;
pub use tree::members_in_order;
