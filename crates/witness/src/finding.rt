// What the verifier finds of a network that it does not refuse.
use conditions::fault::Verdict;

// The verdict, and how many wires were written of the run that shows it.
#[derive(Clone, Copy)]
pub struct Finding {
    pub verdict: Verdict,
    pub wires: usize,
}
