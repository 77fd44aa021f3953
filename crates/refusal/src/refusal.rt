// What is wrong with a problem, a buffer, a network or a text.

// A refusal, with what it names.
#[derive(Clone, Copy, PartialEq, Eq)]
pub enum Refusal {
    // the number of inputs is 0 or above 10
    Inputs,
    // the table's length is not 2^n
    TableLength,
    // a table byte is above 2
    TableByte {
        point: u16,
    },
    // the list of transitions is odd or too long
    ListLength,
    // an end of a transition is no point
    NoPoint {
        transition: u16,
    },
    // more inputs move than the limit
    WideBurst {
        transition: u16,
    },
    // a don't care in a transition cube
    DontCare {
        transition: u16,
        point: u16,
    },
    FunctionHazard {
        transition: u16,
        point: u16,
    },
    // the buffer is shorter than n bytes for each required cube
    ShortBuffer,
    // a required cube blocks: its transition and label, and the steps of its growth and the zero that it ends at
    Blocked {
        transition: u16,
        label: u16,
        steps: u16,
        lowest: u16,
    },
    // the network's length is no multiple of n, or there are more products than the limit
    NetworkLength,
    // a product has a byte above 2
    ProductByte {
        product: u16,
    },
    // the wire buffer is shorter than two numbers for each input of each product
    ShortWires,
    // the text is no problem
    MalformedText,
}
