// How rows may be related to a cube, and for one input the rows that allow each digit of the cube.
ghost use Rattle.std.specs.Prelude.{◌||◌, ◌≤◌, ◌<◌, eqb, length};
ghost use Rattle.hazard.specs.Cube.{bit, fits};
ghost use Rattle.cube.specs.Entry.{point_in};
ghost use Rattle.columns.specs.Relation.{digit_in};
ghost use Rattle.columns.specs.Allowing.{Allowing, AllowedAt, DigitsAt};

use crate::column::column;
use cube::entry::{CARE_BIT, POINT_BIT, VALUE_BIT};

// The row's cube lies inside the cube, the cube meets it, it contains the cube, or the row's point lies in the cube.
#[derive(Clone, Copy)]
pub enum Relation {
    Inside,
    Meets,
    Contains,
    PointInside,
}

// The rows that allow the cube's digit 0, 1 and 2.
#[derive(Clone, Copy)]
pub struct Allowed {
    pub zero: u64,
    pub one: u64,
    pub absent: u64,
}

// The literals of up to 64 rows at one input: bit k of each word tells whether row k has one, and which.
#[derive(Clone, Copy)]
struct Literals {
    care: u64,
    value: u64,
}

impl Literals {
    // Three methods, and not one that takes the test: `inside` and `meeting` share no formula but `ones`.

    // A row's digit is the cube's, or the cube has no literal.
    fn inside(self) -> Allowed
        ensures { Allowing (λ e d. fits e d) self.care self.value result }
    {
        let ones = self.care & self.value;
        Allowed {
            zero: self.care ^ ones,
            one: ones,
            absent: u64::MAX,
        }
    }

    // A row's digit is not the opposite literal.
    fn meeting(self) -> Allowed
        ensures { Allowing (λ e d. eqb d 2 || fits d e) self.care self.value result }
    {
        let ones = self.care & self.value;
        Allowed {
            zero: !ones,
            one: !(self.care ^ ones),
            absent: u64::MAX,
        }
    }

    // A row has no literal, or the cube's: as for rows that meet it, but a row allows no absent literal where it has one.
    fn containing(self) -> Allowed
        ensures { Allowing (λ e d. fits d e) self.care self.value result }
    {
        Allowed {
            absent: !self.care,
            ..self.meeting()
        }
    }
}

// The literals of the rows' cubes at input i.
fn cubes_at(rows: &[u64], i: usize) -> Literals
    requires { (length rows.now ≤ 64) × (i < 10) }
    ensures { DigitsAt (λ w. digit_in w i) rows.now result.care result.value }
{
    Literals {
        care: column(rows, CARE_BIT + i),
        value: column(rows, VALUE_BIT + i),
    }
}

// The literals of the rows' points at input i: every one is present.
fn points_at(rows: &[u64], i: usize) -> Literals
    requires { (length rows.now ≤ 64) × (i < 10) }
    ensures { DigitsAt (λ w. bit (point_in w) i) rows.now result.care result.value }
{
    Literals {
        care: u64::MAX,
        value: column(rows, POINT_BIT + i),
    }
}

// The words of input i. A match: the relation is a value that contracts name, and not a step that a caller hands over.
pub fn allowed_at(rel: Relation, rows: &[u64], i: usize) -> Allowed
    requires { (length rows.now ≤ 64) × (i < 10) }
    ensures { AllowedAt rel rows.now i result }
{
    match rel {
        Relation::Inside => cubes_at(rows, i).inside(),
        Relation::Meets => cubes_at(rows, i).meeting(),
        Relation::Contains => cubes_at(rows, i).containing(),
        Relation::PointInside => points_at(rows, i).inside(),
    }
}
