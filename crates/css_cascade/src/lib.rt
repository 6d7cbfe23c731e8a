//! The order of the cascade of CSS (CSS Cascading 5, section 6): that of layers, whose names
//! it reads, and that of the declarations of one property on one element.
#![tactic(auto)]

mod layers;
mod names;
mod rollback;
mod weights;

pub use layers::{LayerPart, Layers, LayersError, outermost};
pub use names::{LayerName, is_block_name, read_block_name, read_layer_names};
pub use rollback::{Rollback, is_left, rolls_back};
pub use weights::{Origin, Weight, beats, cascade_cmp};
