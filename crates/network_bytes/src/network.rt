// A network's bytes, as checks 11 and 12 let them through.
ghost use Rattle.std.specs.Prelude.{◌≡◌, ◌/◌, length};
ghost use Rattle.network_bytes.specs.Network.{Sound};

use cube::inputs::Inputs;

// One byte for each input of each product, the products one after another.
#[derive(Clone, Copy)]
pub struct NetworkBytes<'a> {
    pub n: Inputs,
    pub bytes: &'a [u8],
    ghost sound: { Sound n.count bytes.now },
}

impl<'a> NetworkBytes<'a> {
    // How many products.
    pub fn count(self) -> usize
        ensures { result ≡ length self.entry.bytes.now / self.entry.n.count }
    {
        self.bytes.len() / self.n.count
    }
}
