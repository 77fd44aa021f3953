// How many inputs a function has.
ghost use Rattle.std.specs.Prelude.{◌≤◌};

// So many inputs; 0 too, for a cube that is all points.
#[derive(Clone, Copy)]
pub struct Inputs {
    pub count: usize,
    ghost few: { count ≤ 10 },
}
