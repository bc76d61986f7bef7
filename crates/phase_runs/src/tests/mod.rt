//! Phases beat by beat and by blocks of beats, by powers, and by each subsystem for itself.

mod places;
mod powers;
mod separate;
mod subsystems;
mod years;
