//! The room for the beats of a part of a phase over places.

ghost use Rattle.std.specs.Prelude.{◌≡◌, IfOk};
ghost use Rattle.sil_model.specs.Sizes.{states_of};
ghost use Rattle.phase_run.specs.Rooms.{HasPartRoom};

use beat_ladder::BlockRoom;
use place_chain::PlaceChain;
use product_chain::Chain;
use sil_model::Loop;
use std::alloc::{AllocError, Global};

/// Room for blocks of beats over the places that a vector reaches, or over chosen ones, by the chains of one loop.
#[derive(Drop)]
pub struct PartRoom {
    /// How many lumped events the loop has.
    pub events: u64,
    /// The places that a vector reaches.
    pub reached: PlaceChain,
    /// Chosen places.
    pub chosen: PlaceChain,
    /// Room for blocks of beats.
    pub blocks: BlockRoom,
    /// The vector over places.
    pub v: Vec<u64>,
    /// Its dwell.
    pub dwell: Vec<u128>,
}

impl PartRoom {
    /// Room for the vectors of a chain of a loop, which have this size.
    pub fn new(alloc: Global, l: &Loop, chain: &Chain, size: usize) -> Result<PartRoom, AllocError>
        requires same { l.now ≡ chain.now.of }
        requires size { size ≡ states_of chain.now.of.subsystems }
        ensures { IfOk result (HasPartRoom chain.now.of) }
    {
        let events = l.lumped_events();
        let reached = PlaceChain::new(alloc, l, chain)?;
        let chosen = PlaceChain::new(alloc, l, chain)?;
        let blocks = BlockRoom::new(alloc, size)?;
        let v = vec![in alloc; 0u64; size]?;
        let dwell = vec![in alloc; 0u128; size]?;
        Ok(PartRoom {
            events,
            reached,
            chosen,
            blocks,
            v,
            dwell,
        })
    }
}
