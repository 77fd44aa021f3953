// The limits that can be moved, each in one place: those of specs/Limits.

// The most inputs that a transition moves.
pub const MOST_MOVING: u32 = 5;

// The most required cubes of a problem.
pub const MOST_REQUIRED: usize = 3072;

// The bytes of the longest network that is made: ten inputs for each required cube.
pub const MOST_COVER: usize = 10 * MOST_REQUIRED;

// The most products of a network that is verified.
pub const MOST_PRODUCTS: usize = 3072;

// The most wires of a run: ten inputs for each product.
pub const MOST_WIRES: usize = 10 * MOST_PRODUCTS;
