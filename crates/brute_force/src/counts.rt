// What was covered, and each kind of disagreement.
#[derive(Clone, Copy, Default)]
pub struct Counts {
    pub minimised: u64,
    pub large: u64,
    pub unvisited: u64,
    pub none: u64,
    pub dont_care: u64,
    pub function_hazard: u64,
    pub dropped: u64,
    pub steps_1: u64,
    pub steps_2: u64,
    pub steps_3: u64,
    pub sets: u64,
    pub refused: u64,
    pub passed: u64,
    pub holds_zero: u64,
    pub intersects: u64,
    pub uncovered: u64,
    pub single_point: u64,
    pub too_wide: u64,
    pub runs: Runs,
    pub differences: Differences,
    pub disagreements: Disagreements,
}

// The runs that show a fault, by the kind of the transition; how many have no wire, and the most wires of one.
#[derive(Clone, Copy, Default)]
pub struct Runs {
    pub rise: u64,
    pub fall: u64,
    pub one_to_one: u64,
    pub empty: u64,
    pub longest: u64,
}

// The faults that a difference of table and network at rest shows: 1s at a 0 of the table, and 0s at a 1.
#[derive(Clone, Copy, Default)]
pub struct Differences {
    pub ones: u64,
    pub zeros: u64,
}

// How often the two sides do not agree, by what they do not agree on.
#[derive(Clone, Copy, Default)]
pub struct Disagreements {
    pub acceptance: u64,
    pub fields_of_none: u64,
    pub hazard_free_set: u64,
    pub buffer: u64,
    pub hazard: u64,
    pub droppable: u64,
    pub inside: u64,
    pub past_the_end: u64,
    pub not_passed: u64,
    pub out_of_sequence: u64,
    pub verdict: u64,
    pub fields_of_fault: u64,
    pub run: u64,
    pub no_run: u64,
    pub past_the_run: u64,
    pub at_rest: u64,
}

// One more. No count comes near the largest number.
pub(crate) fn add(count: &mut u64) {
    *count = count.saturating_add(1);
}

// A disagreement, unless the two sides agree.
pub(crate) fn expect(count: &mut u64, agree: bool) {
    if !agree {
        add(count);
    }
}
