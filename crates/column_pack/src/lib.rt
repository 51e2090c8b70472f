//! Whole numbers of 64 bits in canonical blocks: up to 128 values, each by how far it, or the step to it, is above
//! the least one, in the fewest bits.
#![tactic(auto)]

mod bits;
mod known;
mod laws;
mod pack;
mod parts;
mod places;
mod reading;
mod scan;
mod sound;
mod summary;
mod unpack;
mod values;

pub use known::{first_known, summary_known, unpack_known};
pub use laws::{block_len, block_size, one_block, one_list, stream_bits, whole_sums};
pub use pack::pack_block;
pub use reading::has_spare;
pub use summary::{Summary, block_min_max_sum};
pub use unpack::{BadBlock, unpack_block};
