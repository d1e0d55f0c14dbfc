//! The answers of a schedule, which `World::turn` takes.

pub use tough_world::Answer;
