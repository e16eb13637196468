// What a machine holds of its levels, its masks and its processors, in words: what an event changes, but for the words of the pages, which
// their owner lends beside it. specs/Lent.antt says which state the parts make up.
use partition::level::Levels;
use partition::mask::Masks;
use processor::record::Record;

#[derive(Clone, Copy)]
pub struct Parts {
    pub levels: Levels,
    pub masks: Masks,
    pub vps: [Record; 4],
}
