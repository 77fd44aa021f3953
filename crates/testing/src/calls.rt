// The two calls with nothing promised of their answers: what a test program finds rests on no contract of theirs.
use crate::products::Products;
use crate::wires::Wires;
use conditions::fault::Verdict;
use minimiser::minimise::minimise;
use refusal::refusal::Refusal;
use verifier::verify::verify;

// A problem, as the calls take it.
#[derive(Clone, Copy)]
pub struct Problem<'a> {
    pub n: usize,
    pub table: &'a [u8],
    pub transitions: &'a [u16],
}

// What the minimiser wrote into a buffer: how many products, their bytes, and the rest of the buffer. There are no bytes where the buffer is
// shorter than so many products.
#[derive(Clone, Copy)]
pub struct Written<'a> {
    pub count: usize,
    pub products: Products<'a>,
    pub rest: &'a [u8],
}

// A verdict, and what the verifier wrote into a buffer: how many wires, which, and the rest of the buffer. There are none where the buffer
// is shorter than so many wires.
#[derive(Clone, Copy)]
pub struct Shown<'a> {
    pub verdict: Verdict,
    pub count: usize,
    pub wires: Wires<'a>,
    pub rest: &'a [u16],
}

impl<'a> Problem<'a> {
    // What the minimiser wrote, or its refusal.
    pub fn minimised<'b>(&self, cover: &'b mut [u8]) -> Result<Written<'b>, Refusal> {
        let n = self.n;
        let count = minimise(n, self.table, self.transitions, cover)?;
        let cover: &'b [u8] = cover;
        let end = n.saturating_mul(count);
        let (bytes, rest) = cover.split_at_checked(end).unwrap_or((&[], cover));
        Ok(Written {
            count,
            products: Products { n, bytes },
            rest,
        })
    }

    // The verdict on a network with what the verifier wrote, or its refusal.
    pub fn verified<'b>(&self, network: &[u8], wires: &'b mut [u16]) -> Result<Shown<'b>, Refusal> {
        let finding = verify(self.n, self.table, self.transitions, network, wires)?;
        let wires: &'b [u16] = wires;
        let end = finding.wires.saturating_mul(2);
        let (numbers, rest) = wires.split_at_checked(end).unwrap_or((&[], wires));
        let (wires, _) = numbers.as_chunks::<2>();
        Ok(Shown {
            verdict: finding.verdict,
            count: finding.wires,
            wires: Wires(wires),
            rest,
        })
    }
}
